// How a new row stands to a kept one.
#[derive(Clone, Copy, PartialEq, Eq, Debug)]
pub enum Standing {
    // More up-to-date.
    Newer,
    // Equal or older.
    Known,
    // Neither is at least as up-to-date as the other.
    Inconsistent,
}
