// The lines of an activation, an event and settings, and the places that they leave.
ghost use Rattle.std.specs.Prelude.{◌≡◌, true, ◌+◌, ◌≤◌, length};
ghost use Rattle.device.specs.Refusal.{number, refusal_number, outcome};
ghost use Rattle.bound.specs.Answers.{Small};
ghost use Rattle.trace.specs.declared.Record.TheVariants.{Set, Activate, Refresh};
ghost use Rattle.columns.specs.Output.{refusal_line, PrintsInto};
ghost use Rattle.steps.specs.Steps.{record_step};
ghost use Rattle.steps.specs.Memory.{memory_of, Ready, BankedIn};
ghost use Rattle.steps.specs.InnerContracts.{settings_line, at_line, moved, activation_refusal, ListsLine, LeavesIn};

use crate::{Listed, Place, print};
use dense::Tally;
use device::{Refusal, Settings, test};

// A place with another loaded remap, and so many lines.
pub fn at_line(p: Place, loaded: [u32; 16], lines: u64) -> Place
    ensures { result ≡ at_line p loaded lines }
{
    Place { loaded, lines, ..p }
}

// A place whose tracker moved on, and so many lines.
pub fn moved(p: Place, events: u32, activations: u32, tally: Tally, lines: u64) -> Place
    ensures { result ≡ moved p events activations tally lines }
{
    Place {
        events,
        activations,
        tally,
        lines,
        ..p
    }
}

// A refused line: it prints its refusal, and all else stays.
pub fn list_refusal(p: Place, refusal: Refusal, line: u64, out: &mut [u8], at: usize) -> Listed
    requires { at + 18 ≤ length out.old }
    ensures place_value { result.place ≡ at_line p p.loaded line }
    ensures prints_into { PrintsInto out at (refusal_line line (number refusal)) result.end }
{
    let end = columns::print_refusal(out, at, line, refusal.number());
    Listed {
        place: at_line(p, p.loaded, line),
        end,
    }
}

// The tests of an activation line.
#[tactic(auto, unfolding(crate::specs::InnerContracts::activation_refusal, device::specs::Refusal::refuse))]
fn test_activation(p: Place, row: u32, hold: u32) -> Result<(), Refusal>
    requires { p.active ≡ true → p.activations ≤ 4096 }
    ensures { refusal_number result ≡ activation_refusal p row hold }
{
    test(p.active, Refusal::Line)?;
    test(row < p.settings.rows, Refusal::Row)?;
    test(device::hold_allowed(hold), Refusal::Hold)?;
    test(
        p.activations + hold <= p.settings.interval,
        Refusal::IntervalFull,
    )
}

// An activation that no test refuses.
fn activated(
    p: Place,
    counts: &mut [u32],
    marks: &mut [u64],
    bounds: &mut [u32],
    row: u32,
    hold: u32,
    line: u64,
) -> Place
    requires { Ready (memory_of p counts.old) × BankedIn p counts.old marks.old bounds.old × (activation_refusal p row hold ≡ 0) }
    ensures leaves_in { LeavesIn (record_step line p.loaded (memory_of p counts.old).tracker (Activate row hold)).tracker p.loaded line counts result }
    ensures banked_in { BankedIn result counts.new marks.new bounds.new }
{
    let s = p.settings;
    let remap = p.remap;
    let t = p.tally;
    let physical = device::physical_row(remap, row);
    let tally = engine::activate(
        s.rows,
        s.blast_diameter,
        s.counters,
        counts,
        marks,
        bounds,
        t,
        physical,
        hold,
    );
    moved(p, p.events, p.activations + hold, tally, line)
}

// The line of an activation.
pub fn list_activation(
    p: Place,
    counts: &mut [u32],
    marks: &mut [u64],
    bounds: &mut [u32],
    row: u32,
    hold: u32,
    line: u64,
    out: &mut [u8],
    at: usize,
) -> Listed
    requires { Ready (memory_of p counts.old) × BankedIn p counts.old marks.old bounds.old × (at + 200 ≤ length out.old) }
    ensures lists_line { ListsLine (record_step line p.loaded (memory_of p counts.old).tracker (Activate row hold)) p.loaded line counts out at result }
    ensures banked_in { BankedIn result.place counts.new marks.new bounds.new }
{
    match test_activation(p, row, hold) {
        Ok(()) => Listed {
            place: activated(p, counts, marks, bounds, row, hold, line),
            end: at,
        },
        Err(refusal) => list_refusal(p, refusal, line, out, at),
    }
}

// The line of an event; 11 where no tracker stands.
pub fn list_event(
    p: Place,
    counts: &mut [u32],
    marks: &mut [u64],
    bounds: &mut [u32],
    line: u64,
    out: &mut [u8],
    at: usize,
) -> Listed
    requires { Ready (memory_of p counts.old) × BankedIn p counts.old marks.old bounds.old × (at + 200 ≤ length out.old) }
    ensures lists_line { ListsLine (record_step line p.loaded (memory_of p counts.old).tracker Refresh) p.loaded line counts out at result }
    ensures banked_in { BankedIn result.place counts.new marks.new bounds.new }
{
    if !p.active {
        return list_refusal(p, Refusal::Line, line, out, at);
    }
    let s = p.settings;
    let t = p.tally;
    let e = p.events;
    let mut list = [0; 16];
    let picked = engine::refresh(s, counts, marks, bounds, t, e, &mut list);
    let tally = picked.tally;
    let end = print::print_refresh(out, at, e, &list, picked.count);
    Listed {
        place: moved(p, tracker::next_event(s, e), 0, tally, line),
        end,
    }
}

// The line of settings, by the bound's answer; the place behind it.
fn print_settings(out: &mut [u8], at: usize, line: u64, answer: Result<u64, Refusal>) -> usize
    requires { (at + 22 ≤ length out.old) × Small (outcome answer) }
    ensures { PrintsInto out at (settings_line line (outcome answer)) result }
{
    match answer {
        Ok(h) => print::print_bound(out, at, h),
        Err(refusal) => columns::print_refusal(out, at, line, refusal.number()),
    }
}

// A settings line: it sets up with the remap that is loaded. Refused, it leaves no tracker standing.
pub fn list_settings(
    p: Place,
    s: Settings,
    counts: &mut [u32],
    marks: &mut [u64],
    bounds: &mut [u32],
    line: u64,
    out: &mut [u8],
    at: usize,
) -> Listed
    requires { Ready (memory_of p counts.old) × BankedIn p counts.old marks.old bounds.old × (at + 200 ≤ length out.old) }
    ensures lists_line { ListsLine (record_step line p.loaded (memory_of p counts.old).tracker (Set s)) p.loaded line counts out at result }
    ensures banked_in { BankedIn result.place counts.new marks.new bounds.new }
{
    let answer = bound::bound(s);
    let end = print_settings(out, at, line, answer);
    let active = answer.is_ok();
    let loaded = p.loaded;
    let tally = dense::clear(counts, marks, bounds);
    Listed {
        place: Place {
            active,
            settings: s,
            remap: loaded,
            events: 0,
            activations: 0,
            tally,
            loaded,
            lines: line,
        },
        end,
    }
}
