// A run of accepted activation lines, each of one unit: they print nothing, and what they change stands in a few numbers and the tables. The physical row is
// worked out in place, as `device::physical_row` does, which would get a copy of the remap with each line.
ghost use Rattle.std.specs.Prelude.{◌≡◌, ◌≤◌, length};
ghost use Rattle.steps.specs.Memory.{memory_of, Ready, BankedIn};
ghost use Rattle.listing.specs.InnerContracts.{numbers_on, RunsOn};

use crate::Ran;
use columns::LINES;
use steps::Place;

// The number of lines, counted modulo 10,000,000,000, behind so many more.
fn lines_behind(lines: u64, count: usize) -> u64
    requires { count ≤ 4611686018427387904 }
    ensures { result ≡ numbers_on lines count }
{
    if count == 0 {
        return lines;
    }
    (lines % LINES + (count as u64 - 1)) % LINES + 1
}

// Lists the accepted activation lines from a place of the text on, up to another line.
pub fn run_activations(
    p: Place,
    counts: &mut [u32],
    marks: &mut [u64],
    bounds: &mut [u32],
    text: &[u8],
    from: usize,
) -> Ran
    requires { Ready (memory_of p counts.old) × BankedIn p counts.old marks.old bounds.old × (from ≤ length text.now) }
    ensures runs_on { RunsOn text.now (memory_of p counts.old) from (memory_of result.place counts.new) result.taken }
    ensures banked_in { BankedIn result.place counts.new marks.new bounds.new }
{
    if !p.active {
        return Ran {
            place: p,
            taken: from,
        };
    }
    let s = p.settings;
    let remap = p.remap;
    let mut activations = p.activations;
    let mut tally = p.tally;
    let mut at = from;
    while let Some(row) = trace::activation_row(text, at)
        && row < s.rows
        && activations < s.interval
    {
        tally = engine::activate(
            s.rows,
            s.blast_diameter,
            s.counters,
            counts,
            marks,
            bounds,
            tally,
            row / 16 * 16 + remap[(row % 16) as usize],
            1,
        );
        activations += 1;
        at += 8;
    }
    let lines = lines_behind(p.lines, (at - from) / 8);
    Ran {
        place: Place {
            activations,
            tally,
            lines,
            ..p
        },
        taken: at,
    }
}
