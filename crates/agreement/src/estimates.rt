// Whether two summaries give every row the same estimate: one walk over both, in the order of rows.
ghost use Rattle.std.specs.Prelude.{◌≡◌, ◌≤◌, min, length};
ghost use Rattle.summary.specs.InnerContracts.{summary};
ghost use Rattle.agreement.specs.Calls.{same_estimates};
ghost use Rattle.agreement.specs.InnerContracts.{TracksBelow, next_row, at_row, estimate_at, place_after};

use summary::Tally;

// A summary in its tables: the tracked rows have places in both.
#[derive(Clone, Copy)]
pub struct Tracked<'a> {
    pub rows: &'a [u32],
    pub counts: &'a [u32],
    pub tally: Tally,
    ghost in_rows: { tally.tracked ≤ length rows.now },
    ghost in_counts: { tally.tracked ≤ length counts.now },
}

impl Tracked<'_> {
    // The row at place `i`, or `high` behind the last tracked row.
    #[tactic(auto, unfolding(crate::specs::InnerContracts::next_row))]
    fn next_row(self, high: u32, i: usize) -> u32
        ensures { result ≡ next_row self.entry.rows.now self.entry.tally.tracked high i }
    {
        if i < self.tally.tracked {
            self.rows[i]
        } else {
            high
        }
    }

    // Whether `row` is the row at place `i`.
    #[tactic(auto, unfolding(crate::specs::InnerContracts::at_row))]
    fn at_row(self, row: u32, i: usize) -> bool
        ensures { result ≡ at_row self.entry.rows.now self.entry.tally.tracked row i }
    {
        i < self.tally.tracked && self.rows[i] == row
    }

    // The estimate of `row`, where place `i` is the first whose row is not below it.
    #[tactic(auto, using(crate::proofs::InnerContracts::Walk::at_row_tracked), unfolding(crate::specs::InnerContracts::estimate_at))]
    fn estimate_at(self, row: u32, i: usize) -> u32
        ensures { result ≡ estimate_at self.entry.rows.now self.entry.counts.now self.entry.tally.tracked self.entry.tally.spillover row i }
    {
        if self.at_row(row, i) {
            self.counts[i]
        } else {
            self.tally.spillover
        }
    }

    // The place behind `row`, from the same place `i`.
    #[tactic(auto, using(crate::proofs::InnerContracts::Walk::at_row_tracked), unfolding(crate::specs::InnerContracts::place_after))]
    fn place_after(self, row: u32, i: usize) -> usize
        ensures { result ≡ place_after self.entry.rows.now self.entry.tally.tracked row i }
    {
        if self.at_row(row, i) { i + 1 } else { i }
    }
}

// The next row of two walks.
fn lower_row(a: Tracked, i: usize, b: Tracked, j: usize, high: u32) -> u32
    ensures { result ≡ min (next_row a.entry.rows.now a.entry.tally.tracked high i) (next_row b.entry.rows.now b.entry.tally.tracked high j) }
{
    a.next_row(high, i).min(b.next_row(high, j))
}

// Whether every row below `high` has the same estimate in both summaries. Each turn passes a tracked row and the untracked rows before it,
// whose estimates are the spillovers.
pub fn same_estimates(a: Tracked, b: Tracked, high: u32) -> bool
    requires tracks_below { TracksBelow high a.rows.now a.counts.now a.tally }
    requires tracks_below_2 { TracksBelow high b.rows.now b.counts.now b.tally }
    ensures { result ≡ same_estimates high (summary a.entry.rows.now a.entry.counts.now a.entry.tally) (summary b.entry.rows.now b.entry.counts.now b.entry.tally) }
{
    let mut low = 0;
    let mut i = 0;
    let mut j = 0;
    // No range or slice is walked: each turn passes as many rows as neither summary tracks.
    while low < high {
        let row = lower_row(a, i, b, j, high);
        if low < row {
            if a.tally.spillover != b.tally.spillover {
                return false;
            }
        }
        if row == high {
            return true;
        }
        let x = a.estimate_at(row, i);
        if x != b.estimate_at(row, j) {
            return false;
        }
        i = a.place_after(row, i);
        j = b.place_after(row, j);
        low = row + 1;
    }
    true
}
