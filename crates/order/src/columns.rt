ghost use Rattle.std.specs.Prelude.{◌≡◌, ℕ, nat_le};
ghost use Rattle.order.specs.Columns.{cell as cell_of, column as column_of};

use model::Watch;

// The entry of row `k` for an origin, in a matrix of `n` stations; 0 past the matrix's end.
fn cell(matrix: &[u8], n: u8, k: u8, origin: u8) -> u8
    ensures { result ≡ cell_of n matrix.now k origin }
{
    let at = usize::from(k) * usize::from(n) + usize::from(origin);
    matrix.get(at).copied().unwrap_or(0)
}

// Whether row `k` has an entry of `s` or more for an origin.
fn reaches(matrix: &[u8], n: u8, k: u8, origin: u8, s: u8) -> bool
    ensures { result ≡ nat_le s (cell_of n matrix.now k origin) }
{
    cell(matrix, n, k, origin) >= s
}

// The value of an origin's column: the largest sequence, at most the watch length, that at least 2f + 1 rows reach, else 0.
pub fn column(watch: Watch, matrix: &[u8], origin: u8) -> u8
    ensures { result ≡ column_of watch.faults watch.limit matrix.now origin }
{
    // Kept: the project's form for this search is one over sequences and rows, whose value a labelled break yields.
    let n = watch.stations();
    let quorum = watch.quorum();
    'search: {
        for s in (1..=watch.limit).rev() {
            let mut rows = 0;
            for k in 0..n {
                if reaches(matrix, n, k, origin, s) {
                    rows += 1;
                }
                if rows >= quorum {
                    break 'search s;
                }
            }
        }
        0
    }
}
