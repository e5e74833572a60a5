// Lists a trace: standard input to standard output, through buffers of fixed size. What goes wrong is said on standard error.
#![tactic(auto)]

ghost use Rattle.std.specs.Prelude.{◌≡◌, length};
ghost use Rattle.aids.specs.Marks.{Marked};
ghost use Rattle.aids.specs.Bounds.{all_bounds};
ghost use Rattle.rowlist.specs.Runs.{RanIn};

use input::{Errno, File, Next};
use turns::Turn;

// A count for every row of the largest bank, a word of marks for each 64 of them and one for each 64 of these, and as many bounds; the bytes of a read,
// and room for what they print.
const ROWS: usize = 262_144;

const MARKS: usize = 4_160;

const BOUNDS: usize = 4_160;

const TEXT: usize = 6_144;

const OUT: usize = 339_968;

// A run that ended where a write failed: what its last step left, and why.
#[derive(Clone, Copy)]
struct Unwritten {
    turn: Turn,
    reason: Errno,
}

// Reads, lists and writes, until the input ends or a read or write fails; what the last step left.
fn run(
    rt: &HostRuntime,
    file: &mut File,
    counts: &mut [u32],
    marks: &mut [u64],
    bounds: &mut [u32],
    text: &mut [u8],
    out: &mut [u8],
) -> Result<Turn, Unwritten>
    requires { Marked counts.old marks.old × (length bounds.old ≡ all_bounds) × (length text.old ≡ 6144) × (length out.old ≡ 339968) }
    ensures { RanIn result counts text out }
{
    let mut turn = turns::first_turn();
    'reads: for _ in 0..u64::MAX {
        if turn.next != Next::More {
            break;
        }
        turn = turns::next_turn(turn, file, counts, marks, bounds, text, out);
        if let Err(reason) = input::write(rt, &out[..turn.end]) {
            return Err(Unwritten { turn, reason });
        }
    }
    Ok(turn)
}

// Lists standard input; what went wrong is said on standard error.
fn main(rt: HostRuntime) {
    let mut file = input::standard_input(rt.stdin());
    let mut counts = [0u32; ROWS];
    let mut marks = [0u64; MARKS];
    let mut bounds = [0u32; BOUNDS];
    let mut text = [0u8; TEXT];
    let mut out = [0u8; OUT];
    let ended = run(
        &rt,
        &mut file,
        &mut counts,
        &mut marks,
        &mut bounds,
        &mut text,
        &mut out,
    );
    match ended {
        Ok(last) if last.next == Next::Broken => {
            input::tell(&rt, b"rowlist: cannot read the trace", input::reason(&file))
        }
        Ok(_) => {}
        Err(last) => input::tell(&rt, b"rowlist: cannot write the listing", last.reason),
    }
}
