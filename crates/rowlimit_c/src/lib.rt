// A row's closer figure for C: the static library over crate rowlimit. include/row_tracker.h declares it.
#![tactic(auto)]

ghost use Rattle.std.specs.Prelude.{◌≡◌};
ghost use Rattle.bound.specs.Answers.{signed, settings_of};
ghost use Rattle.rowlimit.specs.Answers.{row_limit_answer, position_of};

use device::Settings;
use state::Position;

// The figure, or refusal k as -k.
#[unsafe(no_mangle)]
#[tactic(auto, using(rowlimit::proofs::Answers::small_row_limit_answer), unfolding(bound::specs::Answers::settings_of, rowlimit::specs::Answers::position_of))]
pub extern "C" fn row_tracker_row_limit(
    rows: u32,
    blast_diameter: u32,
    volume: u32,
    counters: u32,
    interval: u32,
    window: u32,
    block: u32,
    remap: &[u32; 16],
    row: u32,
    events: u32,
    activations: u32,
    tracked: u32,
    spillover: u32,
) -> i64
    ensures { result ≡ signed (row_limit_answer (settings_of rows blast_diameter volume counters interval window block) remap.now row (position_of events activations tracked spillover)) }
{
    let s = Settings {
        rows,
        blast_diameter,
        volume,
        counters,
        interval,
        window,
        block,
    };
    let p = Position {
        events,
        activations,
        tracked,
        spillover,
    };
    bound::signed_number(rowlimit::row_limit(s, *remap, row, p))
}
