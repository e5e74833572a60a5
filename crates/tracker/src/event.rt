// A refresh event, in whatever memory the summary is kept: the picked and block rows are taken out, the window's end clears, then the refreshed rows disturb
// their victims.
ghost use Rattle.std.specs.Prelude.{◌∷◌, [], ◌-◌, ◌≤◌, ◌<◌, length, take};
ghost use Rattle.device.specs.Acceptance.{most_rows};
ghost use Rattle.device.specs.Victims.{rows_between};
ghost use Rattle.summary.specs.Steps.{spread, besides, taken_out, cleared_if, event};
ghost use Rattle.summary.specs.Rules.{Below, Ordered, RoomFor};
ghost use Rattle.summary.specs.InnerContracts.{Names};
ghost use Rattle.summary.specs.Ledger.{Turned};
ghost use Rattle.tracker.specs.Calls.{victims_in, block_rows, ends_window};
ghost use Rattle.tracker.specs.InnerContracts.{Ranges};

use crate::victims;
use device::Settings;
use summary::ledger::Ledger;

// The picked rows are named at the front of the lent picks and dropped, and so are the block's; how many are picked.
fn take_out<L: Ledger>(s: Settings, t: &mut L, low: u32, high: u32, picks: &mut [u32]) -> usize
    requires kept { L.kept t.old }
    requires bounds { (s.volume ≤ length picks.old) × (high ≤ L.bound t.old) }
    ensures names { Names picks s.volume (L.summary t.old) result }
    ensures turned { Turned L.kept L.summary L.places L.bound L.same (taken_out s.volume (rows_between low high)) t.old t.new }
{
    let count = t.pick(s.volume as usize, picks);
    t.drop_run(low, high);
    count
}

// The summary is cleared where the window ends.
fn clear_if<L: Ledger>(last: bool, t: &mut L)
    requires { L.kept t.old }
    ensures { Turned L.kept L.summary L.places L.bound L.same (cleared_if last) t.old t.new }
{
    if last {
        t.clear();
    }
}

// The picked rows, so many at the front of picks, disturb their victims in pick order.
fn spread_picks<L: Ledger>(s: Settings, t: &mut L, picks: &[u32], used: usize)
    requires kept { L.kept t.old }
    requires rows_in_bank { (s.blast_diameter ≤ 4) × (s.rows ≤ most_rows) × (s.rows ≤ L.bound t.old) }
    requires picks_in_bank { (used ≤ 16) × (used ≤ length picks.now) × Below s.rows (take used picks.now) }
    requires room_for { RoomFor 128 (L.summary t.old) }
    ensures { Turned L.kept L.summary L.places L.bound L.same (spread (L.places t.old) (victims_in s) (take used picks.now)) t.old t.new }
{
    for i in 0..used {
        victims::disturb_victims(s, t, picks[i]);
    }
}

// A row disturbs its victims unless it is one of the picked.
fn spread_unlisted<L: Ledger>(s: Settings, t: &mut L, picks: &[u32], used: usize, row: u32)
    requires kept { L.kept t.old }
    requires row_in_bank { (s.blast_diameter ≤ 4) × (row < s.rows) × (s.rows ≤ most_rows) × (s.rows ≤ L.bound t.old) × (used ≤ length picks.now) }
    requires room_for { RoomFor 64 (L.summary t.old) }
    ensures { Turned L.kept L.summary L.places L.bound L.same (spread (L.places t.old) (victims_in s) (besides (take used picks.now) (row ∷ []))) t.old t.new }
{
    if summary::is_listed(picks, used, row) {
        return;
    }
    victims::disturb_victims(s, t, row);
}

// The rows of a run that are not picked disturb their victims, ascending.
fn spread_run<L: Ledger>(s: Settings, t: &mut L, picks: &[u32], used: usize, low: u32, high: u32)
    requires kept { L.kept t.old }
    requires rows_in_bank { (s.blast_diameter ≤ 4) × (s.rows ≤ most_rows) × (s.rows ≤ L.bound t.old) }
    requires run_in_bank { (used ≤ length picks.now) × (high ≤ s.rows) × (high - low ≤ 64) }
    requires room_for { RoomFor 320 (L.summary t.old) }
    ensures { Turned L.kept L.summary L.places L.bound L.same (spread (L.places t.old) (victims_in s) (besides (take used picks.now) (rows_between low high))) t.old t.new }
{
    for row in low..high {
        spread_unlisted(s, t, picks, used, row);
    }
}

// A whole event; e is the number of events in the window before it. How many rows are picked.
pub fn refresh<L: Ledger>(s: Settings, t: &mut L, e: u32, picks: &mut [u32]) -> usize
    requires kept { L.kept t.old }
    requires ranges { Ranges s e (length picks.old) × (s.rows ≤ L.bound t.old) }
    requires room_for { RoomFor 448 (L.summary t.old) × Ordered s.rows 0 (L.summary t.old).entries }
    ensures names { Names picks s.volume (L.summary t.old) result }
    ensures turned { Turned L.kept L.summary L.places L.bound L.same (event (L.places t.old) (victims_in s) s.volume (block_rows s e) (ends_window s e)) t.old t.new }
{
    let low = e * s.block;
    let high = (low + s.block).min(s.rows);
    let count = take_out(s, t, low, high, picks);
    clear_if(e == s.window - 1, t);
    spread_picks(s, t, picks, count);
    spread_run(s, t, picks, count, low, high);
    count
}
