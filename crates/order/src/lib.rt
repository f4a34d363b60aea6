// Rows and the order: how rows compare, what a matrix of rows makes eligible, and in which order operations come.
#![tactic(auto)]

mod columns;
mod key;
mod reach;
mod rows;
mod runs;
mod standing;
mod turns;

pub use columns::column;
pub use key::Key;
pub use reach::Reach;
pub use rows::{compare, consistent};
pub use runs::unbroken;
pub use standing::Standing;
pub use turns::kth;
