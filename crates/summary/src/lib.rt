// The Misra-Gries summary of disturbed rows, in two lent tables: look up, drop, enter, disturb, take out the highest.
// An internal layer: its callers keep the tables as `Tracks` says; the tracker's calls refuse any other state.
#![tactic(auto)]

pub mod ledger;

ghost use Rattle.std.specs.Prelude.{◌≡◌, false, ◌∷◌, [], ◌-◌, ◌≤◌, ◌<◌, length, take, get_or, replicate};
ghost use Rattle.tables.specs.InnerContracts.{Rising, equal_place, put_in, taken_at};
ghost use Rattle.summary.specs.Entries.{has};
ghost use Rattle.summary.specs.Steps.{disturb, drop_rows, enter, in_rows};
ghost use Rattle.summary.specs.InnerContracts.{Tracks};
ghost use Rattle.summary.specs.Facts.{holds_prop};

use crate::ledger::Ledger;

// The number of tracked rows and the spillover, which go with the tables.
#[derive(Clone, Copy)]
pub struct Tally {
    pub tracked: usize,
    pub spillover: u32,
}

// Two lent tables that hold a summary, with its tally.
#[derive(Drop)]
pub struct Table<'a> {
    pub rows: &'a mut [u32],
    pub counts: &'a mut [u32],
    pub tally: Tally,
    ghost tracks: { Tracks rows.now counts.now tally } by { holds_prop _ _ _ _ _ _ _ },
}

// The place of a row among the tracked ones, or their number.
fn lookup(rows: &[u32], tracked: usize, row: u32) -> usize
    requires { (tracked ≤ length rows.now) × Rising (take tracked rows.now) }
    ensures { result ≡ equal_place row (take tracked rows.now) }
{
    let p = tables::lower_bound(rows, tracked, row);
    if p < tracked && rows[p] == row {
        p
    } else {
        tracked
    }
}

// An entry is taken out of both tables.
fn remove_entry(rows: &mut [u32], counts: &mut [u32], tracked: usize, at: usize)
    requires { (at < tracked) × (tracked ≤ length rows.old) × (tracked ≤ length counts.old) }
    ensures { (rows.new ≡ taken_at rows.old tracked at) × (counts.new ≡ taken_at counts.old tracked at) }
{
    tables::remove_at(rows, tracked, at);
    tables::remove_at(counts, tracked, at);
}

// An entry is put into both tables.
fn insert_entry(
    rows: &mut [u32],
    counts: &mut [u32],
    tracked: usize,
    at: usize,
    row: u32,
    count: u32,
)
    requires { (at ≤ tracked) × (tracked < length rows.old) × (tracked < length counts.old) }
    ensures { (rows.new ≡ put_in rows.old tracked at row) × (counts.new ≡ put_in counts.old tracked at count) }
{
    tables::insert_at(rows, tracked, at, row);
    tables::insert_at(counts, tracked, at, count);
}

// 0 everywhere in both tables.
fn clear_entries(rows: &mut [u32], counts: &mut [u32])
    ensures { (rows.new ≡ replicate (length rows.old) 0) × (counts.new ≡ replicate (length counts.old) 0) }
{
    tables::clear(rows);
    tables::clear(counts);
}

impl<'a> Table<'a> {
    ghost use Rattle.tables.specs.InnerContracts.{lower_place, equal_place, highest_place};
    ghost use Rattle.summary.specs.Kept.{held, places_of, Turns};

    // The place of a row among the tracked ones, or their number.
    fn find(&self, row: u32) -> usize
        ensures { result ≡ equal_place row (take self.now.tally.tracked self.now.rows.now) }
    {
        lookup(self.rows, self.tally.tracked, row)
    }

    // Where a row belongs among the tracked ones.
    fn place(&self, row: u32) -> usize
        ensures { result ≡ lower_place row (take self.now.tally.tracked self.now.rows.now) }
    {
        tables::lower_bound(self.rows, self.tally.tracked, row)
    }

    // The place of the lowest row at the spillover, or the number of tracked rows.
    fn at_spillover(&self) -> usize
        ensures { result ≡ equal_place self.now.tally.spillover (take self.now.tally.tracked self.now.counts.now) }
    {
        tables::first_equal(self.counts, self.tally.tracked, self.tally.spillover)
    }

    // The place of the first row of the highest count.
    fn highest(&self) -> usize
        requires { 0 < self.now.tally.tracked }
        ensures { result ≡ highest_place (take self.now.tally.tracked self.now.counts.now) }
    {
        tables::first_highest(self.counts, self.tally.tracked)
    }

    // The row at a place is dropped.
    fn remove(&mut self, at: usize)
        requires { at < self.old.tally.tracked }
        ensures turns { Turns (drop_rows (get_or self.old.rows.now at 0 ∷ [])) self.old self.new }
        ensures one_less { (self.new.tally.tracked ≡ self.old.tally.tracked - 1) × (self.new.tally.spillover ≡ self.old.tally.spillover) }
    {
        let k = self.tally.tracked;
        remove_entry(self.rows, self.counts, k, at);
        self.tally.tracked = k - 1;
    }

    // A row that is not tracked is entered with one more than the spillover; a place is free.
    fn enter_row(&mut self, row: u32)
        requires room { (self.old.tally.tracked < length self.old.rows.now) × (self.old.tally.spillover < 4294967295) }
        requires untracked { has row (held self.old).entries ≡ false }
        ensures { Turns (enter row) self.old self.new }
    {
        let k = self.tally.tracked;
        let count = self.tally.spillover + 1;
        let p = self.place(row);
        insert_entry(self.rows, self.counts, k, p, row, count);
        self.tally.tracked = k + 1;
    }

    // No place is free: the lowest row at the spillover makes room, or the spillover rises.
    fn disturb_full(&mut self, row: u32)
        requires full { (self.old.tally.tracked ≡ length self.old.rows.now) × (self.old.tally.spillover < 4294967295) }
        requires untracked { has row (held self.old).entries ≡ false }
        ensures { Turns (disturb (places_of self.old) row) self.old self.new }
    {
        let q = self.at_spillover();
        if q < self.tally.tracked {
            self.remove(q);
            self.enter_row(row);
        } else {
            self.tally.spillover += 1;
        }
    }
}

impl<'a> Ledger for Table<'a> {
    ghost use Rattle.summary.specs.Kept.{always, held, places_of, all_rows, same_memory};
    ghost use Rattle.std.specs.Prelude.{refl};
    ghost use Rattle.std.proofs.Common.{rules};

    ghost kept = { always };

    ghost summary = { held };

    ghost places = { places_of };

    ghost bound = { all_rows };

    ghost same = { same_memory };

    fn drop_row(&mut self, row: u32) {
        let p = self.find(row);
        if p < self.tally.tracked {
            self.remove(p);
        }
    }

    fn disturb_row(&mut self, row: u32) {
        let p = self.find(row);
        if p < self.tally.tracked {
            self.counts[p] += 1;
        } else if self.tally.tracked < self.rows.len() {
            self.enter_row(row);
        } else {
            self.disturb_full(row);
        }
    }

    fn take_top(&mut self) -> Option<u32> {
        if self.tally.tracked == 0 {
            return None;
        }
        let at = self.highest();
        let row = self.rows[at];
        self.remove(at);
        Some(row)
    }

    fn clear(&mut self) {
        clear_entries(self.rows, self.counts);
        self.tally = Tally {
            tracked: 0,
            spillover: 0,
        };
    }

    ghost same_reflexive = { λ a. (refl, refl) };

    ghost same_transitive = { λ a b c x y. Prim.search rules };

    ghost ordered = { λ a k. a.tracks.sound.ordered };
}

// Whether a row is among the first of a list.
pub fn is_listed(list: &[u32], used: usize, row: u32) -> bool
    requires { used ≤ length list.now }
    ensures { result ≡ in_rows row (take used list.now) }
{
    tables::first_equal(list, used, row) < used
}
