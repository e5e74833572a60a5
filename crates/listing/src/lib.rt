// The listing: what the program prints for a trace that comes in parts.
#![tactic(auto)]

mod run;

ghost use Rattle.std.specs.Prelude.{◌≡◌, ◌+◌, ◌*◌, ◌≤◌, is_some, IfSome, length, drop};
ghost use Rattle.trace.specs.Lines.{ended};
ghost use Rattle.trace.specs.Reading.{said, reading};
ghost use Rattle.steps.specs.Memory.{memory_of, start_place, Ready, BankedIn, next_number};
ghost use Rattle.columns.specs.Output.{PrintsInto};
ghost use Rattle.listing.specs.Chunks.{line_room, part, part_left, chunk, chunk_left, last_line};

use columns::LINES;
use dense::Tally;
use device::{Refusal, Settings};
use steps::Place;
use trace::Read;

// Room for the longest line that is printed, which has 110 bytes.
const ROOM: usize = 200;

// Where the listing is behind a run of lines that print nothing, and the place behind them.
#[derive(Clone, Copy)]
pub struct Ran {
    pub place: Place,
    pub taken: usize,
}

// Where the listing is behind the lines that were taken, how many bytes of the text they were, and the place behind what was printed.
#[derive(Clone, Copy)]
pub struct Part {
    pub place: Place,
    pub taken: usize,
    pub end: usize,
}

// What lies between two reads left: where the listing is, the place behind what was printed, and how many bytes are kept.
#[derive(Clone, Copy)]
pub struct Chunk {
    pub place: Place,
    pub end: usize,
    pub kept: usize,
}

// Where a listing begins: no tracker stands, and our own remap is loaded.
pub fn start() -> Place
    ensures { result ≡ start_place }
{
    let remap = device::own_remap();
    Place {
        active: false,
        settings: Settings {
            rows: 0,
            blast_diameter: 0,
            volume: 0,
            counters: 0,
            interval: 0,
            window: 0,
            block: 0,
        },
        remap,
        events: 0,
        activations: 0,
        tally: Tally {
            tracked: 0,
            spillover: 0,
            hint: 0,
        },
        loaded: remap,
        lines: 0,
    }
}

// The line at a place of the text, if it has ended.
fn ended_line(text: &[u8], at: usize) -> Option<Read>
    requires { at ≤ length text.now }
    ensures is_ended { is_some result ≡ ended (drop at text.now) }
    ensures says { IfSome result (λ line. said line ≡ reading text.now at) }
{
    if at == text.len() {
        return None;
    }
    let line = trace::read_line(text, at);
    (text[line.place - 1] == b'\n').then_some(line)
}

// Lists the lines at the front of a text, while they have ended and there is room to print in: a run of accepted activations, then the line behind it.
pub fn list_part(
    p: Place,
    counts: &mut [u32],
    marks: &mut [u64],
    bounds: &mut [u32],
    text: &[u8],
    out: &mut [u8],
) -> Part
    requires { Ready (memory_of p counts.old) × BankedIn p counts.old marks.old bounds.old }
    ensures out_value { part_left result counts out ≡ part (memory_of p counts.old) text.now out.old }
    ensures banked_in { BankedIn result.place counts.new marks.new bounds.new }
{
    let mut place = p;
    let mut at: usize = 0;
    let mut end: usize = 0;
    while ROOM <= out.len() - end {
        let run = run::run_activations(place, counts, marks, bounds, text, at);
        place = run.place;
        at = run.taken;
        let Some(line) = ended_line(text, at) else {
            return Part {
                place,
                taken: at,
                end,
            };
        };
        let listed = steps::list_line(place, counts, marks, bounds, line, out, end);
        place = listed.place;
        end = listed.end;
        at = line.place;
    }
    Part {
        place,
        taken: at,
        end,
    }
}

// The end of a trace: what is left of it is a last line without byte 10, which is refused, or nothing.
pub fn list_end(p: Place, text: &[u8], out: &mut [u8]) -> usize
    ensures { PrintsInto out 0 (last_line (next_number p.lines) text.now (length out.old)) result }
{
    if text.is_empty() {
        return 0;
    }
    if out.len() < 18 {
        return 0;
    }
    columns::print_refusal(out, 0, p.lines % LINES + 1, Refusal::Line.number())
}

// What lies between two reads: of the first bytes of the text, the lines that have ended are listed, and the first 128 bytes of what is left go to
// the text's front.
pub fn list_chunk(
    p: Place,
    counts: &mut [u32],
    marks: &mut [u64],
    bounds: &mut [u32],
    text: &mut [u8],
    len: usize,
    out: &mut [u8],
) -> Chunk
    requires { Ready (memory_of p counts.old) × BankedIn p counts.old marks.old bounds.old × (len ≤ length text.old) × (55 * len + line_room ≤ length out.old) }
    ensures out_value { chunk_left result counts text out ≡ chunk (memory_of p counts.old) text.old len out.old }
    ensures banked_in { BankedIn result.place counts.new marks.new bounds.new }
{
    let part = list_part(p, counts, marks, bounds, &text[0..len], out);
    let place = part.place;
    let kept = trace::keep(text, part.taken, len);
    Chunk {
        place,
        end: part.end,
        kept,
    }
}
