// Rewrites a trace in its one spelling: standard input to standard output, through buffers of fixed size. At the first faulty line it stops and
// says on standard error which it is, and so it does where something cannot be read or written.
#![tactic(auto)]

ghost use Rattle.std.specs.Prelude.{false, ◌≡◌, ◌+◌, ◌≤◌, eqb, length, take};
ghost use Rattle.trace.specs.Reading.{said};
ghost use Rattle.columns.specs.Output.{PrintsInto};
ghost use Rattle.canonical.specs.Spelling.{answer_spelling};
ghost use Rattle.tracefmt.specs.Rewriting.{next, writes, end_of, fault_line};
ghost use Rattle.input.specs.Next.{reads_on, has_failed};
ghost use Rattle.tracefmt.specs.Turns.{progress_of, Rewrites, Moves, Readable, TurnLeaves, first_turn, Stepped, state_before, state_left, RanIn};
ghost use Rattle.tracefmt.specs.InnerContracts.{CarriedIn};

use columns::LINES;
use device::Refusal;
use input::{Errno, File, Input, Next};
use trace::Read;

// The bytes of a read, and of what they write: no line's spelling is longer than the line.
const TEXT: usize = 65_536;

// Where a rewriting is: N of the settings that stand, if any do; the lines so far, which count modulo 10,000,000,000; and the refusal that stopped
// it, if one did.
#[derive(Clone, Copy)]
struct Place {
    rows: Option<u32>,
    lines: u64,
    refusal: Option<Refusal>,
}

// Where the rewriting is behind a line, and the place behind what was written.
#[derive(Clone, Copy)]
struct Rewritten {
    place: Place,
    end: usize,
}

// Where the rewriting is behind the lines that were taken, how many bytes of the text they were, and the place behind what was written.
#[derive(Clone, Copy)]
struct Part {
    place: Place,
    taken: usize,
    end: usize,
}

// The same with how many bytes are kept.
#[derive(Clone, Copy)]
struct Chunk {
    place: Place,
    end: usize,
    kept: usize,
}

// What lies between two reads left: where the rewriting is, how many bytes are kept at the text's front and how many are to be written, and what
// comes next.
#[derive(Clone, Copy)]
struct Turn {
    place: Place,
    kept: usize,
    end: usize,
    next: Next,
}

// A run that ended where a write failed: what its last step left, and why.
#[derive(Clone, Copy)]
struct Unwritten {
    turn: Turn,
    reason: Errno,
}

// Behind a line, as it was read.
#[tactic(auto, using(crate::proofs::OneLine::place_stopped, crate::proofs::OneLine::place_faulty, crate::proofs::OneLine::place_sound))]
fn next_place(p: Place, answer: Read) -> Place
    ensures { progress_of result ≡ next (progress_of p) (said answer).outcome }
{
    if p.refusal.is_some() {
        return p;
    }
    match spelling::test(p.rows, answer) {
        Ok(()) => Place {
            rows: spelling::rows_behind(p.rows, answer),
            lines: p.lines % LINES + 1,
            refusal: None,
        },
        Err(refusal) => Place {
            rows: p.rows,
            lines: p.lines,
            refusal: Some(refusal),
        },
    }
}

// Rewrites one line, at a place of the buffer.
fn rewrite_line(p: Place, answer: Read, out: &mut [u8], at: usize) -> Rewritten
    requires { at + length (answer_spelling (said answer).outcome) ≤ length out.old }
    ensures { (progress_of result.place ≡ next (progress_of p) (said answer).outcome) × PrintsInto out at (writes (progress_of p) (said answer).outcome) result.end }
{
    let place = next_place(p, answer);
    if place.refusal.is_some() {
        return Rewritten { place, end: at };
    }
    let end = spelling::print_answer(out, at, answer);
    Rewritten { place, end }
}

// Rewrites the lines at the front of a text, while they have ended and none is faulty.
fn rewrite_part(p: Place, text: &[u8], out: &mut [u8]) -> Part
    requires { length text.now ≤ length out.old }
    ensures { Rewrites (progress_of p) text.now out.old out.new (progress_of result.place) result.taken result.end }
{
    let mut place = p;
    let mut at: usize = 0;
    let mut end: usize = 0;
    'lines: while at < text.len() && place.refusal.is_none() {
        let answer = trace::read_line(text, at);
        let next = answer.place;
        if text[next - 1] != b'\n' {
            return Part {
                place,
                taken: at,
                end,
            };
        }
        let line = rewrite_line(place, answer, out, end);
        place = line.place;
        end = line.end;
        at = next;
    }
    Part {
        place,
        taken: at,
        end,
    }
}

// Rewrites the lines among the first bytes of the text; the first 128 bytes of what is left go to the text's front.
fn rewrite_chunk(p: Place, text: &mut [u8], len: usize, out: &mut [u8]) -> Chunk
    requires { (len ≤ length text.old) × (length text.old ≤ length out.old) }
    ensures { Moves (progress_of p) (take len text.old) (take result.end out.new) (progress_of result.place) (take result.kept text.new) × (result.kept ≤ length text.new) × (result.end ≤ length out.new) }
{
    let part = rewrite_part(p, &text[0..len], out);
    let place = part.place;
    let kept = trace::keep(text, part.taken, len);
    Chunk {
        place,
        end: part.end,
        kept,
    }
}

// The end of a trace: if bytes are left of it, they are a last line without byte 10, which is refused.
#[tactic(auto, using(crate::proofs::OneLine::end_none, crate::proofs::OneLine::end_some), unfolding(crate::specs::Rewriting::end_of, trace::specs::Reading::said, device::specs::Refusal::outcome))]
fn rewrite_end(p: Place, kept: usize) -> Place
    ensures { progress_of result ≡ end_of (progress_of p) kept }
{
    if kept == 0 {
        return p;
    }
    let unended = Read {
        outcome: Err(Refusal::Line),
        place: 0,
    };
    next_place(p, unended)
}

// The line that stopped the rewriting, if one did.
#[tactic(auto, using(columns::proofs::Output::prints_nothing, crate::proofs::OneLine::faulty), unfolding(crate::specs::Turns::progress_of, crate::specs::Turns::refusal_of, crate::specs::Rewriting::fault_line))]
fn print_fault(p: Place, out: &mut [u8]) -> usize
    requires { 18 ≤ length out.old }
    ensures { PrintsInto out 0 (fault_line (progress_of p)) result }
{
    match p.refusal {
        None => 0,
        Some(refusal) => columns::print_refusal(out, 0, p.lines % LINES + 1, refusal.number()),
    }
}

// What comes next behind lines: another read, unless one was faulty.
#[tactic(auto, using(crate::proofs::OneLine::faulty), unfolding(crate::specs::Turns::progress_of, crate::specs::Turns::refusal_of))]
fn next_behind(p: Place) -> Next
    ensures { (reads_on result ≡ eqb (progress_of p).refusal 0) × (has_failed result ≡ false) }
{
    match p.refusal {
        None => Next::More,
        Some(_) => Next::Done,
    }
}

// What lies between two reads: what came in is rewritten, up to the last line's end or to a faulty line.
fn between_reads(from: Turn, text: &mut [u8], input: Input, out: &mut [u8]) -> Turn
    requires { Readable from input text.old out.old }
    ensures { TurnLeaves from text input out result }
{
    let place = from.place;
    let kept = from.kept;
    match input {
        Input::Bytes(len) => {
            let chunk = rewrite_chunk(place, text, len, out);
            let after = chunk.place;
            Turn {
                place: after,
                kept: chunk.kept,
                end: chunk.end,
                next: next_behind(after),
            }
        }
        Input::End => {
            let after = rewrite_end(place, kept);
            Turn {
                place: after,
                kept,
                end: 0,
                next: Next::Done,
            }
        }
        Input::Failed => Turn {
            place,
            kept,
            end: 0,
            next: Next::Broken,
        },
    }
}

// Before the first read.
#[tactic(auto, unfolding(crate::specs::Turns::first_turn))]
fn first_turn() -> Turn
    ensures { result ≡ first_turn }
{
    Turn {
        place: Place {
            rows: None,
            lines: 0,
            refusal: None,
        },
        kept: 0,
        end: 0,
        next: Next::More,
    }
}

// A read of the trace, and what lies behind it.
fn next_turn(from: Turn, file: &mut File, text: &mut [u8], out: &mut [u8]) -> Turn
    requires { CarriedIn from text.old out.old }
    ensures carried_in { CarriedIn result text.new out.new }
    ensures stepped { Stepped (state_before from text out) (state_left result text out) }
{
    let input = input::read_from(file, text, from.kept);
    between_reads(from, text, input, out)
}

// Reads, rewrites and writes, until the input ends, a line is faulty, or a read or write fails; what the last step left.
fn run(
    rt: &HostRuntime,
    file: &mut File,
    text: &mut [u8],
    out: &mut [u8],
) -> Result<Turn, Unwritten>
    requires { (length text.old ≡ 65536) × (length out.old ≡ 65536) }
    ensures { RanIn result text out }
{
    let mut turn = first_turn();
    'reads: for _ in 0..u64::MAX {
        if turn.next != Next::More {
            break;
        }
        turn = next_turn(turn, file, text, out);
        if let Err(reason) = input::write(rt, &out[..turn.end]) {
            return Err(Unwritten { turn, reason });
        }
    }
    Ok(turn)
}

// Says which line was faulty, if one was.
fn tell_fault(rt: &HostRuntime, p: Place, out: &mut [u8])
    requires { 18 ≤ length out.old }
{
    let end = print_fault(p, out);
    input::say(rt, &out[..end]);
}

// Rewrites standard input; what went wrong is said on standard error: something could not be written or read, or a line was faulty.
fn main(rt: HostRuntime) {
    let mut text = [0u8; TEXT];
    let mut out = [0u8; TEXT];
    let mut file = input::standard_input(rt.stdin());
    match run(&rt, &mut file, &mut text, &mut out) {
        Ok(last) if last.next == Next::Broken => {
            input::tell(
                &rt,
                b"tracefmt: cannot read the trace",
                input::reason(&file),
            );
        }
        Ok(last) => tell_fault(&rt, last.place, &mut out),
        Err(last) => {
            input::tell(&rt, b"tracefmt: cannot write the spelling", last.reason);
        }
    }
}
