// The Misra-Gries summary of disturbed rows in one table with a count for every row of the largest bank: to drop, to raise and to enter a row is one store.
// An internal layer: its callers keep the tables as `Bank` says.
#![tactic(auto)]

ghost use Rattle.std.specs.Prelude.{◌≡◌, ◌≤◌, ◌<◌, length, get_or};
ghost use Rattle.device.specs.Acceptance.{most_rows};
ghost use Rattle.tables.specs.InnerContracts.{highest_place};
ghost use Rattle.aids.specs.Marks.{Marked, EmptyFrom};
ghost use Rattle.aids.specs.Bounds.{all_bounds, Capped};
ghost use Rattle.dense.specs.Dense.{Kept};
ghost use Rattle.dense.specs.InnerContracts.{summary, DisturbedIn, TracksNothing};

use summary::ledger::Ledger;

// The number of tracked rows, the spillover, and a row before which none is at the spillover.
#[derive(Clone, Copy)]
pub struct Tally {
    pub tracked: u32,
    pub spillover: u32,
    pub hint: u32,
}

// How many rows were picked, and the tally then.
#[derive(Clone, Copy)]
pub struct Picked {
    pub count: usize,
    pub tally: Tally,
}

// A bank of so many rows with so many counters: the lent counts with their search aids, and the tally that goes with them. What an activation calls
// is inlined: behind a reference that is handed on, each number would be read from memory anew, which takes 10 to 38 % more time.
#[derive(Drop)]
pub struct RowTable<'a> {
    pub rows: u32,
    pub counters: u32,
    pub counts: &'a mut [u32],
    pub marks: &'a mut [u64],
    pub bounds: &'a mut [u32],
    pub tally: Tally,
}

// No place is free: the lowest row at the spillover makes room, or the spillover rises. It takes the slices apart: a method cannot lend two of them to be read.
#[inline(always)]
fn disturb_full(rows: u32, counts: &mut [u32], marks: &mut [u64], t: Tally, row: usize) -> Tally
    requires { Kept counts.old marks.old t × EmptyFrom counts.old rows × (rows ≤ most_rows) × (row < rows) × (get_or counts.old row 0 ≡ 0) × (t.spillover < 4294967295) }
    ensures { DisturbedIn rows t.tracked row (summary counts.old t) counts.old counts.new marks.new result }
{
    let s = t.spillover;
    if s == 0 {
        return Tally {
            tracked: t.tracked,
            spillover: 1,
            hint: 0,
        };
    }
    let Some(found) = aids::first_at(rows as usize, counts, marks, t.hint as usize, s) else {
        return Tally {
            tracked: t.tracked,
            spillover: s + 1,
            hint: 0,
        };
    };
    aids::remove(counts, marks, found);
    aids::enter(counts, marks, row, s + 1);
    Tally {
        tracked: t.tracked,
        spillover: s,
        hint: found as u32,
    }
}

// The first row of the highest count. The counts stay, and are lent as `disturb_full` wants them.
fn top_row(counts: &mut [u32], bounds: &mut [u32]) -> usize
    requires { (length counts.old ≡ most_rows) × Capped counts.old bounds.old }
    ensures { (result ≡ highest_place counts.old) × (result < most_rows) × Capped counts.old bounds.new × (counts.new ≡ counts.old) }
{
    aids::top_row(counts, bounds)
}

impl<'a> RowTable<'a> {
    ghost use Rattle.dense.specs.Kept.{IsNew, Disturbs};

    // A row that is not tracked is disturbed: it is entered where a place is free.
    #[inline(always)]
    fn enter_row(&mut self, row: usize)
        requires { IsNew row self.old }
        ensures { Disturbs row self.old self.new }
    {
        let t = self.tally;
        let counters = self.counters;
        if t.tracked < counters {
            aids::enter(self.counts, self.marks, row, t.spillover + 1);
            self.tally.tracked += 1;
        } else {
            self.tally = disturb_full(self.rows, self.counts, self.marks, t, row);
        }
    }
}

impl<'a> Ledger for RowTable<'a> {
    ghost use Rattle.std.specs.Prelude.{refl};
    ghost use Rattle.std.proofs.Common.{rules};
    ghost use Rattle.dense.specs.Kept.{holds_bank, held, places_of, rows_of, same_memory};
    ghost use Rattle.dense.specs.Facts.{bank_ordered};

    ghost kept = { holds_bank };

    ghost summary = { held };

    ghost places = { places_of };

    ghost bound = { rows_of };

    ghost same = { same_memory };

    #[inline(always)]
    fn drop_row(&mut self, row: u32) {
        if self.counts[row as usize] != 0 {
            aids::remove(self.counts, self.marks, row as usize);
            self.tally.tracked -= 1;
        }
    }

    #[inline(always)]
    fn disturb_row(&mut self, row: u32) {
        let row = row as usize;
        let old = self.counts[row];
        if old != 0 {
            self.counts[row] = old + 1;
            aids::cover(self.bounds, row, old + 1);
        } else {
            self.enter_row(row);
            let count = self.counts[row];
            aids::cover(self.bounds, row, count);
        }
    }

    // What the trait provides, inlined: a call of that, which is not, takes an activation 5 to 20 % more time.
    #[inline(always)]
    fn disturb_around(&mut self, low: u32, middle: u32, high: u32) {
        for row in low..middle {
            self.disturb_row(row);
        }
        for row in middle + 1..high {
            self.disturb_row(row);
        }
    }

    fn take_top(&mut self) -> Option<u32> {
        if self.tally.tracked == 0 {
            return None;
        }
        let row = top_row(self.counts, self.bounds) as u32;
        self.drop_row(row);
        Some(row)
    }

    fn clear(&mut self) {
        self.tally = clear(self.counts, self.marks, self.bounds);
    }

    ghost same_reflexive = { λ a. (refl, refl, refl) };

    ghost same_transitive = { λ a b c x y. Prim.search rules };

    ghost ordered = { λ a h. bank_ordered h };
}

// Every row is dropped, and the spillover is 0.
pub fn clear(counts: &mut [u32], marks: &mut [u64], bounds: &mut [u32]) -> Tally
    requires { Marked counts.old marks.old × (length bounds.old ≡ all_bounds) }
    ensures { TracksNothing counts marks bounds result }
{
    aids::clear(counts, marks);
    tables::clear(bounds);
    Tally {
        tracked: 0,
        spillover: 0,
        hint: 0,
    }
}
