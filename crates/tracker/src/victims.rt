// A row disturbs its victims, and an activation, unit by unit, in whatever memory the summary is kept.
ghost use Rattle.std.specs.Prelude.{◌≤◌, ◌<◌};
ghost use Rattle.device.specs.Acceptance.{most_rows};
ghost use Rattle.device.specs.Hold.{repeated};
ghost use Rattle.summary.specs.Steps.{disturb_each, activation};
ghost use Rattle.summary.specs.Ledger.{Turned};
ghost use Rattle.summary.specs.Rules.{RoomFor};
ghost use Rattle.tracker.specs.Calls.{victims_in};

use device::Settings;
use summary::ledger::Ledger;

// A row disturbs its victims, ascending. Inlined, as what calls it: behind a reference that is handed on, each number of the memory would be read anew.
#[inline(always)]
pub fn disturb_victims<L: Ledger>(s: Settings, t: &mut L, row: u32)
    requires kept { L.kept t.old }
    requires row_in_bank { (s.blast_diameter ≤ 4) × (row < s.rows) × (s.rows ≤ most_rows) × (s.rows ≤ L.bound t.old) }
    requires room_for { RoomFor 64 (L.summary t.old) }
    ensures { Turned L.kept L.summary L.places L.bound L.same (disturb_each (L.places t.old) (victims_in s row)) t.old t.new }
{
    let reach = s.blast_diameter / 2;
    let low = device::lowest_within(row, reach);
    let high = (device::highest_within(row, reach) + 1).min(s.rows);
    t.disturb_around(low, row, high);
}

// A row is activated for so many units: it is dropped if tracked, and each unit disturbs its victims. It is none of them, so no later unit has it to drop. A
// unit raises no count, and not the spillover, by more than 4.
#[inline(always)]
pub fn activate<L: Ledger>(s: Settings, t: &mut L, row: u32, units: u32)
    requires kept { L.kept t.old }
    requires row_in_bank { (s.blast_diameter ≤ 4) × (row < s.rows) × (s.rows ≤ most_rows) × (s.rows ≤ L.bound t.old) }
    requires units { (1 ≤ units) × (units ≤ 16) × RoomFor 128 (L.summary t.old) }
    ensures { Turned L.kept L.summary L.places L.bound L.same (repeated units (activation (L.places t.old) (victims_in s) row)) t.old t.new }
{
    t.drop_row(row);
    for _unit in 0..units {
        disturb_victims(s, t, row);
    }
}
