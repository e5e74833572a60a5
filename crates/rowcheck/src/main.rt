// Checks a supplier's listing against a trace: two files, read through buffers of fixed size. The required listing is made part by part and compared as the
// supplier's comes in.
#![tactic(auto)]

mod line;

ghost use Rattle.std.specs.Prelude.{◌≡◌, ◌&&◌, [], ◌+◌, ◌≤◌, ◌<◌, leb, length, IfSome};
ghost use Rattle.aids.specs.Marks.{Marked};
ghost use Rattle.aids.specs.Bounds.{all_bounds};
ghost use Rattle.input.specs.declared.Input.TheVariants.{End};
ghost use Rattle.input.specs.Next.{reads_on, has_failed};
ghost use Rattle.turns.specs.Turns.{turn_before, turn_left};
ghost use Rattle.turns.specs.Turns.{Stepped as TurnStepped};
ghost use Rattle.turns.specs.InnerContracts.{CarriedIn};
ghost use Rattle.rowcheck.specs.Turns.{open_so_far, behind_trace, given_beside, behind_listing, ReadBeside, first_step};
ghost use Rattle.rowcheck.specs.Answers.{has_answer};
ghost use Rattle.rowcheck.specs.InnerContracts.{Comparable, most_lines, ListingChecked, SteppedIn, RanIn, RanFresh};

use input::{Errno, File, Input, Next};
use std::env::{Env, FillError};
use turns::Turn;

// The tracker's tables: a count for every row of the largest bank, a word of marks for each 64 of them and one for each 64 of these, and as many bounds.
const ROWS: usize = 262_144;

const MARKS: usize = 4_160;

const BOUNDS: usize = 4_160;

// The bytes of a read of the trace, and room for what they require and for what is given beside it.
const TEXT: usize = 6_144;

const OUT: usize = 339_968;

// Reads enough for any files; each passes over no more lines than a buffer has bytes, so a line's number stays below 2 to the 64th.
const TURNS: u64 = 35_184_372_088_832;

// A file that is open, and the length of its name.
#[derive(Drop)]
struct Named {
    file: File,
    length: usize,
}

// The file of the trace, and the length of its name.
#[derive(Drop)]
struct TraceFile {
    file: File,
    length: usize,
}

// The file of the listing, and the length of its name: another type, so that neither can stand for the other.
#[derive(Drop)]
struct ListingFile {
    file: File,
    length: usize,
}

// What a check has come to.
#[derive(Clone, Copy, PartialEq, Eq)]
pub enum Answer {
    Open,
    Passes,
    Departs,
    TraceFailed,
    ListingFailed,
}

// How far the comparison is: the bytes compared of those that are required now, the lines that have ended among all that were the same, and the answer.
#[derive(Clone, Copy)]
pub struct Check {
    pub at: usize,
    pub lines: u64,
    pub answer: Answer,
}

// How far a run is: what lies between two reads of the trace left, and how far the comparison is.
#[derive(Clone, Copy)]
pub struct Step {
    pub turn: Turn,
    pub check: Check,
}

// Behind a read of the trace: what it requires is to be compared from its start on, unless the read failed.
#[tactic(auto, unfolding(crate::specs::Turns::behind_trace))]
fn behind_trace(from: Check, next: Next) -> Check
    ensures { result ≡ behind_trace from (has_failed next) }
{
    let answer = match next {
        Next::More | Next::Done => Answer::Open,
        Next::Broken => Answer::TraceFailed,
    };
    Check {
        at: 0,
        answer,
        ..from
    }
}

// Bytes of the listing, up to a place: compared with what is required there, or surplus where nothing is.
fn given_beside(from: Check, required: &[u8], end: usize, given: &[u8], len: usize) -> Check
    requires { (from.at < end → (from.at < len) × (len ≤ end)) × (end ≤ length required.now) × (end ≤ length given.now) × (from.lines + length given.now ≤ 18446744073709551615) }
    ensures { result ≡ given_beside from required.now end given.now len }
{
    let at = from.at;
    if end <= at {
        return Check {
            answer: Answer::Departs,
            ..from
        };
    }
    match checker::compare(&required[at..len], &given[at..len], 0, from.lines) {
        Ok(lines) => Check {
            at: len,
            lines,
            answer: Answer::Open,
        },
        Err(lines) => Check {
            at: len,
            lines,
            answer: Answer::Departs,
        },
    }
}

// The end of the listing: nothing is missing, or a line is.
#[tactic(auto, unfolding(crate::specs::Turns::behind_listing))]
fn given_end(from: Check, end: usize) -> Check
    ensures { result ≡ behind_listing from [] end [] End }
{
    let answer = if end <= from.at {
        Answer::Passes
    } else {
        Answer::Departs
    };
    Check { answer, ..from }
}

// Behind a read of the listing, so many bytes being required.
#[tactic(auto, unfolding(crate::specs::Turns::behind_listing))]
fn behind_listing(from: Check, required: &[u8], end: usize, given: &[u8], input: Input) -> Check
    requires { Comparable from end input required.now given.now }
    ensures { result ≡ behind_listing from required.now end given.now input }
{
    match input {
        Input::Bytes(len) => given_beside(from, required, end, given, len),
        Input::End => given_end(from, end),
        Input::Failed => Check {
            answer: Answer::ListingFailed,
            ..from
        },
    }
}

// Reads the listing beside what is required and not yet compared, or, where nothing is, from the buffer's front on.
fn read_listing(listing: &mut ListingFile, given: &mut [u8], at: usize, end: usize) -> Input
    requires { end ≤ length given.old }
    ensures { ReadBeside result at end given.old given.new }
{
    if at < end {
        return input::read_from(&mut listing.file, &mut given[..end], at);
    }
    input::read_from(&mut listing.file, given, 0)
}

// Before the first read.
#[tactic(auto, unfolding(crate::specs::Turns::first_step))]
fn first_step() -> Step
    ensures { result ≡ first_step }
{
    Step {
        turn: turns::first_turn(),
        check: Check {
            at: 0,
            lines: 0,
            answer: Answer::Open,
        },
    }
}

// A read of the trace, and what lies behind it.
fn trace_step(
    from: Step,
    trace: &mut TraceFile,
    counts: &mut [u32],
    marks: &mut [u64],
    bounds: &mut [u32],
    text: &mut [u8],
    out: &mut [u8],
) -> Step
    requires { CarriedIn from.turn counts.old marks.old bounds.old text.old out.old }
    ensures carried_in { CarriedIn result.turn counts.new marks.new bounds.new text.new out.new × (result.check.lines ≡ from.check.lines) }
    ensures turn_stepped { TurnStepped (turn_before from.turn counts text out) (turn_left result.turn counts text out) × (result.check ≡ behind_trace from.check (has_failed result.turn.next)) }
{
    let turn = turns::next_turn(from.turn, &mut trace.file, counts, marks, bounds, text, out);
    Step {
        turn,
        check: behind_trace(from.check, turn.next),
    }
}

// A read of the listing, and what lies behind it.
fn listing_step(from: Step, listing: &mut ListingFile, given: &mut [u8], out: &[u8]) -> Step
    requires { (from.turn.end ≤ length out.now) × (from.turn.end ≤ length given.old) × (from.check.lines + length given.old ≤ 18446744073709551615) }
    ensures turn_value { (result.turn ≡ from.turn) × (result.check.lines ≤ from.check.lines + length given.old) }
    ensures listing_checked { ListingChecked from.check result.check out.now from.turn.end given.old given.new }
{
    let Step { turn, check } = from;
    let input = read_listing(listing, given, check.at, turn.end);
    Step {
        turn,
        check: behind_listing(check, out, turn.end, given, input),
    }
}

// Whether nothing is answered yet.
#[tactic(auto, unfolding(crate::specs::Turns::open_so_far))]
fn is_open(k: Check) -> bool
    ensures { result ≡ open_so_far k.answer }
{
    k.answer == Answer::Open
}

// Whether the trace is to be read next: it goes on, and all that it required so far is compared.
fn wants_trace(from: Step) -> bool
    ensures { result ≡ reads_on from.turn.next && leb from.turn.end from.check.at }
{
    from.turn.next == Next::More && from.turn.end <= from.check.at
}

// A read of the file that is wanted next, and what lies behind it: the trace once all that it required is compared, else the listing.
fn next_step(
    from: Step,
    trace: &mut TraceFile,
    listing: &mut ListingFile,
    counts: &mut [u32],
    marks: &mut [u64],
    bounds: &mut [u32],
    text: &mut [u8],
    out: &mut [u8],
    given: &mut [u8],
) -> Step
    requires { CarriedIn from.turn counts.old marks.old bounds.old text.old out.old × (length given.old ≡ 339968) × (from.check.lines + 339968 ≤ 18446744073709551615) }
    ensures carried_in { CarriedIn result.turn counts.new marks.new bounds.new text.new out.new × (result.check.lines ≤ from.check.lines + 339968) }
    ensures stepped_in { SteppedIn from result counts text out given }
{
    if wants_trace(from) {
        return trace_step(from, trace, counts, marks, bounds, text, out);
    }
    listing_step(from, listing, given, out)
}

// Reads both files until the answer is known, or a read fails.
fn run(
    trace: &mut TraceFile,
    listing: &mut ListingFile,
    counts: &mut [u32],
    marks: &mut [u64],
    bounds: &mut [u32],
    text: &mut [u8],
    out: &mut [u8],
    given: &mut [u8],
) -> Check
    requires { Marked counts.old marks.old × (length bounds.old ≡ all_bounds) × (length text.old ≡ 6144) × (length out.old ≡ 339968) × (length given.old ≡ 339968) }
    ensures ran_in { RanIn result counts text out given }
    ensures lines_le_most_lines { result.lines ≤ most_lines }
{
    let mut step = first_step();
    'reads: for _ in 0..TURNS {
        if !is_open(step.check) {
            break;
        }
        step = next_step(
            step, trace, listing, counts, marks, bounds, text, out, given,
        );
    }
    step.check
}

// Checks one open file against another, with memory of its own.
fn check_files(trace: &mut TraceFile, listing: &mut ListingFile) -> Check
    ensures ran_fresh { RanFresh result }
    ensures lines_le_most_lines { result.lines ≤ most_lines }
{
    let mut counts = [0u32; ROWS];
    let mut marks = [0u64; MARKS];
    let mut bounds = [0u32; BOUNDS];
    let mut text = [0u8; TEXT];
    let mut out = [0u8; OUT];
    let mut given = [0u8; OUT];
    run(
        trace,
        listing,
        &mut counts,
        &mut marks,
        &mut bounds,
        &mut text,
        &mut out,
        &mut given,
    )
}

// How to call it.
fn tell_usage(rt: &HostRuntime) {
    input::say(
        rt,
        b"rowcheck: two file names are needed: rowcheck TRACE LISTING\n",
    );
}

// What is wrong with the file of a name.
fn tell_file(rt: &HostRuntime, wrong: &[u8], name: &[u8], reason: Errno) {
    input::say(rt, wrong);
    input::say(rt, b" ");
    input::tell(rt, name, reason);
}

// Whether there is an argument of a number, however long.
fn is_given(rt: &HostRuntime, argument: usize) -> bool {
    let mut name = io::buffer();
    !matches!(rt.arg(argument, &mut name), Err(FillError::NotPresent))
}

// Opens the file that an argument names, which goes to the buffer's front; where that fails, it is said.
fn open(rt: &HostRuntime, argument: usize, name: &mut [u8], wrong: &[u8]) -> Option<Named>
    ensures { IfSome result (λ named. named.length ≤ length name.new) }
{
    let length = match rt.arg(argument, name) {
        Ok(length) => length,
        Err(error) => {
            input::tell(rt, wrong, error.into());
            return None;
        }
    };
    let file = input::open(rt, &name[..length]);
    if !input::is_open(&file) {
        tell_file(rt, wrong, &name[..length], input::reason(&file));
        return None;
    }
    Some(Named { file, length })
}

// The trace is the first argument's file.
fn open_trace(rt: &HostRuntime, name: &mut [u8]) -> Option<TraceFile>
    ensures { IfSome result (λ trace. trace.length ≤ length name.new) }
{
    let Named { file, length } = open(rt, 1, name, b"rowcheck: cannot open the trace")?;
    Some(TraceFile { file, length })
}

// The listing is the second's.
fn open_listing(rt: &HostRuntime, name: &mut [u8]) -> Option<ListingFile>
    ensures { IfSome result (λ listing. listing.length ≤ length name.new) }
{
    let Named { file, length } = open(rt, 2, name, b"rowcheck: cannot open the listing")?;
    Some(ListingFile { file, length })
}

// The answer on standard output; whether there is one.
fn tell_answer(rt: &HostRuntime, k: Check) -> bool
    requires { k.lines ≤ most_lines }
    ensures { result ≡ has_answer k.answer }
{
    let mut line = [0u8; 37];
    let end = line::answer_line(k, &mut line);
    if end == 0 {
        return false;
    }
    if let Err(reason) = input::write(rt, &line[..end]) {
        input::tell(rt, b"rowcheck: cannot write the answer", reason);
    }
    true
}

// Why there is no answer, on standard error.
fn tell_failure(
    rt: &HostRuntime,
    k: Check,
    trace: &[u8],
    trace_reason: Errno,
    listing: &[u8],
    listing_reason: Errno,
) {
    match k.answer {
        Answer::TraceFailed => tell_file(
            rt,
            b"rowcheck: cannot read the trace",
            trace,
            trace_reason,
        ),
        Answer::ListingFailed => tell_file(
            rt,
            b"rowcheck: cannot read the listing",
            listing,
            listing_reason,
        ),
        Answer::Open => input::say(rt, b"rowcheck: the files do not end\n"),
        Answer::Passes | Answer::Departs => {}
    }
}

fn main(rt: HostRuntime) {
    if !is_given(&rt, 2) || is_given(&rt, 3) {
        tell_usage(&rt);
        return;
    }
    let mut trace_name = io::buffer();
    let Some(mut trace) = open_trace(&rt, &mut trace_name) else {
        return;
    };
    let mut listing_name = io::buffer();
    let Some(mut listing) = open_listing(&rt, &mut listing_name) else {
        return;
    };
    let trace_name = &trace_name[..trace.length];
    let listing_name = &listing_name[..listing.length];
    let check = check_files(&mut trace, &mut listing);
    if !tell_answer(&rt, check) {
        tell_failure(
            &rt,
            check,
            trace_name,
            input::reason(&trace.file),
            listing_name,
            input::reason(&listing.file),
        );
    }
}
