// Checking a listing: it is what a trace requires, or the number of its first line that departs.
#![tactic(auto)]

ghost use Rattle.std.specs.Prelude.{◌≡◌, true, Ok, IfOk, IfErr, ◌+◌, ◌-◌, ◌≤◌, ◌<◌, length, drop, replicate};
ghost use Rattle.std.proofs.Math.Option.{some};
ghost use Rattle.aids.specs.Marks.{Marked};
ghost use Rattle.aids.specs.Bounds.{all_bounds};
ghost use Rattle.steps.specs.Memory.{memory_of, start_place, BankedIn, next_number};
ghost use Rattle.listing.specs.Chunks.{last_line};
ghost use Rattle.checker.specs.Departure.{departing, departure};
ghost use Rattle.checker.specs.Comparison.{compared, verdict_of};
ghost use Rattle.checker.specs.InnerContracts.{StandsAt, Reaches, Onward};

use steps::Place;

// The bytes that are required at a time, and room for the longest line that is printed.
const PIECE: usize = 4_096;

const ROOM: usize = 200;

// Bytes whose line ends a number of 32 bits counts.
const MOST: usize = 1_000_000_000;

// The lent memory: a count for every row of the largest bank, a word of marks for each 64 of them and one for each 64 of these, and as many bounds.
const ROWS: usize = 262_144;

const MARKS: usize = 4_160;

const BOUNDS: usize = 4_160;

// Where a listing departs: at a line, counted from 1.
#[derive(Clone, Copy, PartialEq, Eq)]
pub struct Departure {
    pub line: u64,
}

// How far a check is: where the listing of the trace is, the bytes of the trace taken, the bytes of the listing passed and the lines ended among them, and
// whether lines of the trace may be left.
#[derive(Clone, Copy)]
struct Checking {
    place: Place,
    taken: usize,
    passed: usize,
    lines: u64,
    more: bool,
}

// Whether all required bytes, if they are not too many to count, stand in a text from a place on. Several are compared at once; where it says no, nothing is
// promised: they are compared byte by byte then.
fn stands_at(required: &[u8], given: &[u8], from: usize) -> bool
    requires { from ≤ length given.now }
    ensures { result ≡ true → StandsAt required.now (drop from given.now) }
{
    required.len() <= MOST && given[from..].starts_with(required)
}

// The lines that have ended behind a text more.
fn lines_ended(text: &[u8], lines: u64) -> u64
    requires { (length text.now ≤ 1000000000) × (lines + length text.now ≤ 18446744073709551615) }
    ensures { Ok result ≡ compared lines text.now text.now }
{
    // In 32 bits, so that the compiler counts several at once.
    let mut ended: u32 = 0;
    for b in text {
        ended += (*b == b'\n') as u32;
    }
    lines + ended as u64
}

// Compares byte by byte, up to the first that is not the same.
fn compare_bytes(required: &[u8], given: &[u8], from: usize, lines: u64) -> Result<u64, u64>
    requires { (from ≤ length given.now) × (lines + (length given.now - from) ≤ 18446744073709551615) }
    ensures { result ≡ compared lines required.now (drop from given.now) }
{
    // The place in the text is counted: of two walked together the shorter would end both, and which of them ends decides.
    let mut at = from;
    let mut ended = lines;
    for b in required {
        if at == given.len() {
            return Err(ended);
        }
        if *b != given[at] {
            return Err(ended);
        }
        ended += (*b == b'\n') as u64;
        at += 1;
    }
    Ok(ended)
}

// Compares bytes that are required with those given from a place on, behind so many lines: how many have ended among those that were alike, Ok where all
// required bytes stood there.
pub fn compare(required: &[u8], given: &[u8], from: usize, lines: u64) -> Result<u64, u64>
    requires { (from ≤ length given.now) × (lines + (length given.now - from) ≤ 18446744073709551615) }
    ensures { result ≡ compared lines required.now (drop from given.now) }
{
    if stands_at(required, given, from) {
        return Ok(lines_ended(required, lines));
    }
    compare_bytes(required, given, from, lines)
}

// The line behind so many that passed departs.
fn departs_behind(lines: u64) -> Departure
    requires { lines < 18446744073709551615 }
    ensures { result.line ≡ lines + 1 }
{
    Departure { line: lines + 1 }
}

// Before the first line.
fn first() -> Checking
    ensures { result ≡ record { place = start_place; taken = 0; passed = 0; lines = 0; more = true } }
{
    Checking {
        place: listing::start(),
        taken: 0,
        passed: 0,
        lines: 0,
        more: true,
    }
}

// Checks what the next lines of the trace require, as many as a piece has room for.
fn check_part(
    k: Checking,
    counts: &mut [u32],
    marks: &mut [u64],
    bounds: &mut [u32],
    trace: &[u8],
    given: &[u8],
) -> Result<Checking, Departure>
    requires { Reaches trace.now given.now (memory_of k.place counts.old) k × BankedIn k.place counts.old marks.old bounds.old }
    ensures goes_on { IfOk result (λ next. Reaches trace.now given.now (memory_of next.place counts.new) next × Onward trace.now k next × BankedIn next.place counts.new marks.new bounds.new) }
    ensures departs { IfErr result (λ at. departure trace.now given.now ≡ some at.line) }
{
    let mut piece = [0u8; PIECE];
    let part = listing::list_part(
        k.place,
        counts,
        marks,
        bounds,
        &trace[k.taken..],
        &mut piece,
    );
    match compare(&piece[..part.end], given, k.passed, k.lines) {
        Ok(lines) => Ok(Checking {
            place: part.place,
            taken: k.taken + part.taken,
            passed: k.passed + part.end,
            lines,
            more: PIECE - part.end < ROOM,
        }),
        Err(lines) => Err(departs_behind(lines)),
    }
}

// Checks what the end of the trace requires, and that nothing is given behind it.
fn check_rest(k: Checking, trace: &[u8], given: &[u8]) -> Result<(), Departure>
    requires { (k.taken ≤ length trace.now) × (k.passed ≤ length given.now) × (k.lines ≤ k.passed) }
    ensures { verdict_of result ≡ departing k.lines (last_line (next_number k.place.lines) (drop k.taken trace.now) 18) (drop k.passed given.now) }
{
    let mut piece = [0u8; 18];
    let end = listing::list_end(k.place, &trace[k.taken..], &mut piece);
    match compare(&piece[..end], given, k.passed, k.lines) {
        Ok(lines) if end != given.len() - k.passed => Err(departs_behind(lines)),
        Ok(_) => Ok(()),
        Err(lines) => Err(departs_behind(lines)),
    }
}

// Checks a listing with tables in which no row has a count.
fn check_in(
    trace: &[u8],
    given: &[u8],
    counts: &mut [u32],
    marks: &mut [u64],
    bounds: &mut [u32],
) -> Result<(), Departure>
    requires { Marked counts.old marks.old × (length bounds.old ≡ all_bounds) }
    ensures { verdict_of result ≡ departure trace.now given.now }
{
    let mut k = first();
    while k.more {
        k = check_part(k, counts, marks, bounds, trace, given)?;
    }
    check_rest(k, trace, given)
}

// 0 everywhere in the tables.
fn wipe(counts: &mut [u32], marks: &mut [u64], bounds: &mut [u32])
    ensures counts_after { counts.new ≡ replicate (length counts.old) 0 }
    ensures marks_after { marks.new ≡ replicate (length marks.old) 0 }
    ensures bounds_after { bounds.new ≡ replicate (length bounds.old) 0 }
{
    tables::clear(counts);
    aids::clear_marks(marks);
    tables::clear(bounds);
}

// Checks a listing against a trace. The lent memory is the tracker's: what it held makes no difference, and it is all 0 behind the call.
pub fn check(
    trace: &[u8],
    given: &[u8],
    counts: &mut [u32; ROWS],
    marks: &mut [u64; MARKS],
    bounds: &mut [u32; BOUNDS],
) -> Result<(), Departure>
    ensures result_value { verdict_of result ≡ departure trace.now given.now }
    ensures counts_after { counts.new ≡ replicate (length counts.old) 0 }
    ensures marks_after { marks.new ≡ replicate (length marks.old) 0 }
    ensures bounds_after { bounds.new ≡ replicate (length bounds.old) 0 }
{
    wipe(counts, marks, bounds);
    let verdict = check_in(trace, given, counts, marks, bounds);
    wipe(counts, marks, bounds);
    verdict
}
