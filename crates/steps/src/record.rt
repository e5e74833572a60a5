// One line of a trace, as it was read: its record or its refusal.
ghost use Rattle.std.specs.Prelude.{◌≡◌, ◌+◌, ◌≤◌, length};
ghost use Rattle.std.proofs.Math.Option.{none};
ghost use Rattle.device.specs.Refusal.{accepted};
ghost use Rattle.trace.specs.Reading.{said};
ghost use Rattle.columns.specs.Output.{PrintsInto};
ghost use Rattle.steps.specs.Steps.{remap_step, record_step, loaded_by, loaded_behind};
ghost use Rattle.steps.specs.Memory.{memory_of, Ready, BankedIn, next_number, step_in};
ghost use Rattle.steps.specs.InnerContracts.{at_line, ListsLine};

use crate::{Listed, Place, line};
use columns::LINES;
use device::Refusal;
use trace::{Read, Record};

// The line of a remap: accepted, it is loaded for the next settings; refused, the one before it stays.
fn remap_line(p: Place, remap: [u32; 16], line: u64, out: &mut [u8], at: usize) -> Listed
    requires { at + 200 ≤ length out.old }
    ensures place_value { result.place ≡ at_line p (loaded_by p.loaded remap) line }
    ensures prints_into { PrintsInto out at (remap_step line remap none).prints result.end }
{
    if !device::remap_allowed(remap) {
        return line::list_refusal(p, Refusal::Remap, line, out, at);
    }
    Listed {
        place: line::at_line(p, remap, line),
        end: at,
    }
}

// The line of a record.
fn list_record(
    p: Place,
    counts: &mut [u32],
    marks: &mut [u64],
    bounds: &mut [u32],
    what: Record,
    line: u64,
    out: &mut [u8],
    at: usize,
) -> Listed
    requires { Ready (memory_of p counts.old) × BankedIn p counts.old marks.old bounds.old × (at + 200 ≤ length out.old) }
    ensures lists_line { ListsLine (record_step line p.loaded (memory_of p counts.old).tracker what) (loaded_behind p.loaded (accepted what)) line counts out at result }
    ensures banked_in { BankedIn result.place counts.new marks.new bounds.new }
{
    match what {
        Record::Set(s) => line::list_settings(p, s, counts, marks, bounds, line, out, at),
        Record::Remap(t) => remap_line(p, trace::sixteen_of(t), line, out, at),
        Record::Activate(row, hold) => {
            line::list_activation(p, counts, marks, bounds, row, hold, line, out, at)
        }
        Record::Refresh => line::list_event(p, counts, marks, bounds, line, out, at),
        Record::Blank => Listed {
            place: line::at_line(p, p.loaded, line),
            end: at,
        },
    }
}

// A line as it was read: its record's line, or its refusal's.
pub fn list_line(
    p: Place,
    counts: &mut [u32],
    marks: &mut [u64],
    bounds: &mut [u32],
    answer: Read,
    out: &mut [u8],
    at: usize,
) -> Listed
    requires { Ready (memory_of p counts.old) × BankedIn p counts.old marks.old bounds.old × (at + 200 ≤ length out.old) }
    ensures lists_line { ListsLine (step_in (memory_of p counts.old) (said answer).outcome) (loaded_behind p.loaded (said answer).outcome) (next_number p.lines) counts out at result }
    ensures banked_in { BankedIn result.place counts.new marks.new bounds.new }
{
    let line = p.lines % LINES + 1;
    match answer.outcome {
        Ok(what) => list_record(p, counts, marks, bounds, what, line, out, at),
        Err(refusal) => line::list_refusal(p, refusal, line, out, at),
    }
}
