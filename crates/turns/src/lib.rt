// A read of a trace and what lies behind it: the bytes that came in are listed, up to the last line's end.
#![tactic(auto)]

ghost use Rattle.std.specs.Prelude.{◌≡◌};
ghost use Rattle.steps.specs.Memory.{memory_of, start_place, Ready, BankedIn};
ghost use Rattle.turns.specs.Turns.{Readable, turn_from, turn_before, turn_left, Stepped};
ghost use Rattle.input.specs.declared.Next.TheVariants.{More};
ghost use Rattle.turns.specs.InnerContracts.{CarriedIn};

use input::{File, Input, Next};
use steps::Place;

// What lies between two reads left: where the listing is, how many bytes are kept at the text's front, how many are to be written, and what comes next.
#[derive(Clone, Copy)]
pub struct Turn {
    pub place: Place,
    pub kept: usize,
    pub end: usize,
    pub next: Next,
}

// What lies between two reads: what came in is listed, up to the last line's end.
pub fn between_reads(
    from: Turn,
    counts: &mut [u32],
    marks: &mut [u64],
    bounds: &mut [u32],
    text: &mut [u8],
    input: Input,
    out: &mut [u8],
) -> Turn
    requires { Ready (memory_of from.place counts.old) × BankedIn from.place counts.old marks.old bounds.old × Readable from input text.old out.old }
    ensures out_value { turn_left result counts text out ≡ turn_from from counts text input out }
    ensures banked_in { BankedIn result.place counts.new marks.new bounds.new }
{
    let Turn { place, kept, .. } = from;
    match input {
        Input::Bytes(len) => {
            let chunk = listing::list_chunk(place, counts, marks, bounds, text, len, out);
            Turn {
                place: chunk.place,
                kept: chunk.kept,
                end: chunk.end,
                next: Next::More,
            }
        }
        Input::End => Turn {
            place,
            kept,
            end: listing::list_end(place, &text[..kept], out),
            next: Next::Done,
        },
        Input::Failed => Turn {
            place,
            kept,
            end: 0,
            next: Next::Broken,
        },
    }
}

// Before the first read.
pub fn first_turn() -> Turn
    ensures { result ≡ record { place = start_place; kept = 0; end = 0; next = More } }
{
    Turn {
        place: listing::start(),
        kept: 0,
        end: 0,
        next: Next::More,
    }
}

// A read of a trace, and what lies behind it.
pub fn next_turn(
    from: Turn,
    file: &mut File,
    counts: &mut [u32],
    marks: &mut [u64],
    bounds: &mut [u32],
    text: &mut [u8],
    out: &mut [u8],
) -> Turn
    requires { CarriedIn from counts.old marks.old bounds.old text.old out.old }
    ensures carried_in { CarriedIn result counts.new marks.new bounds.new text.new out.new }
    ensures stepped { Stepped (turn_before from counts text out) (turn_left result counts text out) }
{
    let input = input::read_from(file, text, from.kept);
    between_reads(from, counts, marks, bounds, text, input, out)
}
