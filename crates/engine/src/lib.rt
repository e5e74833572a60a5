// The tracker's steps on a summary in one table: an activation for so many units, and a refresh event.
// An internal layer: the listing tests what comes in, and keeps the tables as `Bank` says.
#![tactic(auto)]

ghost use Rattle.std.specs.Prelude.{◌≤◌, ◌<◌, length};
ghost use Rattle.device.specs.Hold.{repeated};
ghost use Rattle.device.specs.Victims.{victims};
ghost use Rattle.summary.specs.Steps.{activation, event};
ghost use Rattle.summary.specs.Rules.{RoomFor};
ghost use Rattle.summary.specs.InnerContracts.{Names};
ghost use Rattle.tracker.specs.Calls.{victims_in, block_rows, ends_window};
ghost use Rattle.tracker.specs.InnerContracts.{Ranges};
ghost use Rattle.dense.specs.InnerContracts.{summary, Holds, Turns};

use dense::{Picked, RowTable, Tally};
use device::Settings;

// A row is activated for so many units.
#[inline(always)]
pub fn activate(
    rows: u32,
    diameter: u32,
    counters: u32,
    counts: &mut [u32],
    marks: &mut [u64],
    bounds: &mut [u32],
    t: Tally,
    row: u32,
    units: u32,
) -> Tally
    requires holds { Holds rows counters counts.old marks.old bounds.old t }
    requires diameter_bound { (diameter ≤ 4) × (row < rows) × (1 ≤ units) × (units ≤ 16) × RoomFor 128 (summary counts.old t) }
    ensures { Turns rows counters counts marks bounds t (repeated units (activation counters (victims rows diameter) row)) result }
{
    // An activation asks for no other settings than these.
    let s = Settings {
        rows,
        blast_diameter: diameter,
        volume: 0,
        counters,
        interval: 0,
        window: 0,
        block: 0,
    };
    let mut table = RowTable {
        rows,
        counters,
        counts,
        marks,
        bounds,
        tally: t,
    };
    tracker::victims::activate(s, &mut table, row, units);
    table.tally
}

// A whole event; e is the number of events in the window before it.
pub fn refresh(
    s: Settings,
    counts: &mut [u32],
    marks: &mut [u64],
    bounds: &mut [u32],
    t: Tally,
    e: u32,
    picks: &mut [u32],
) -> Picked
    requires holds { Holds s.rows s.counters counts.old marks.old bounds.old t }
    requires ranges { Ranges s e (length picks.old) × RoomFor 448 (summary counts.old t) }
    ensures names { Names picks s.volume (summary counts.old t) result.count }
    ensures turns { Turns s.rows s.counters counts marks bounds t (event s.counters (victims_in s) s.volume (block_rows s e) (ends_window s e)) result.tally }
{
    let mut table = RowTable {
        rows: s.rows,
        counters: s.counters,
        counts,
        marks,
        bounds,
        tally: t,
    };
    let count = tracker::event::refresh(s, &mut table, e, picks);
    Picked {
        count,
        tally: table.tally,
    }
}
