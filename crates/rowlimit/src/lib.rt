// A closer figure for each row: the most that its disturbance can be, by where the tracker stands.
#![tactic(auto)]

ghost use Rattle.std.specs.Prelude.{◌≡◌, ◌≤◌, ◌<◌};
ghost use Rattle.device.specs.Refusal.{first_failed, refusal_number, outcome};
ghost use Rattle.device.specs.Acceptance.{settings_tests};
ghost use Rattle.bound.specs.Totals.{bound_of};
ghost use Rattle.limit.specs.ByRow.{carried_most, row_figure};
ghost use Rattle.rowlimit.specs.Answers.{row_limit_tests, row_limit_answer};

use device::{Refusal, Settings};
use state::Position;
use std::cmp::min;

// The tests of the call.
#[tactic(auto, using(crate::proofs::Tests::row_limit_tested, device::proofs::Tests::or_later_first, device::proofs::Tests::number_not_0), unfolding(device::specs::Refusal::refuse, device::proofs::Tests::or_later))]
fn test_row_limit(s: Settings, remap: [u32; 16], row: u32, p: Position) -> Result<(), Refusal>
    ensures { refusal_number result ≡ first_failed (row_limit_tests s remap row p) }
{
    device::test_settings(s)?;
    device::test(row < s.rows, Refusal::Row)?;
    device::test(device::remap_allowed(remap), Refusal::Remap)?;
    device::test(state::position_in_range(s, p), Refusal::State)
}

// What a physical row may carry from the window before. H is at least `least`: where no more can have gathered, H need not be worked out.
fn carried(s: Settings, row: u32, least: u64) -> u64
    requires s_value { first_failed (settings_tests s) ≡ 0 }
    requires row_lt_rows { (row < s.rows) × (least ≤ bound_of s) }
    ensures { result ≡ carried_most s row }
{
    let later = s.window - 1 - row / s.block;
    let gathered = bound::disturbers_of(s) * later as u64;
    if gathered <= least {
        return gathered;
    }
    min(bound::bound_at(s, s.window), gathered)
}

// The figure of a physical row, so many events into a window.
fn figure(s: Settings, events: u32, row: u32) -> u64
    requires s_value { first_failed (settings_tests s) ≡ 0 }
    requires events_lt_window { (events < s.window) × (row < s.rows) }
    ensures { result ≡ row_figure s events row }
{
    let first = bound::bound_at(s, events + 1);
    if row / s.block < events {
        first
    } else {
        first + carried(s, row, first)
    }
}

// The figure of a logical row where a tracker stands, whichever window it is in: the row's disturbance is at most that.
#[tactic(auto, using(crate::proofs::Tests::row_limit_ready, crate::proofs::Tests::row_limit_refused, crate::proofs::Tests::row_limit_answered), unfolding(device::specs::Refusal::outcome))]
pub fn row_limit(s: Settings, remap: [u32; 16], row: u32, p: Position) -> Result<u64, Refusal>
    ensures { outcome result ≡ row_limit_answer s remap row p }
{
    test_row_limit(s, remap, row, p)?;
    Ok(figure(s, p.events, device::physical_row(remap, row)))
}
