// One of the reader's answers: what it earns where it is to be written, and its spelling.
#![tactic(auto)]

ghost use Rattle.std.specs.Prelude.{◌≡◌, cond, [], ◌∷◌, eqb, ◌+◌, ◌*◌, ◌≤◌, length};
ghost use Rattle.trace.specs.Bytes.{letter_S};
ghost use Rattle.device.specs.Refusal.{unless, first_failed, refusal_number};
ghost use Rattle.device.specs.Remap.{remap_allowed};
ghost use Rattle.trace.specs.Records.{sixteen_of};
ghost use Rattle.trace.specs.Reading.{said};
ghost use Rattle.columns.specs.Output.{PrintsInto};
ghost use Rattle.canonical.specs.Spelling.{settings_numbers, spelled_line, activation_spelling, record_spelling, answer_spelling};
ghost use Rattle.canonical.specs.Writing.{activation_fault, event_fault, fault};
ghost use Rattle.spelling.specs.Answers.{standing_of, stood};

use device::{Refusal, Settings};
use trace::{Read, Record, Sixteen};

// The tests of a remap.
#[tactic(auto, unfolding(device::specs::Refusal::first_failed, device::specs::Refusal::unless))]
fn test_remap(t: Sixteen) -> Result<(), Refusal>
    ensures { refusal_number result ≡ first_failed (unless (remap_allowed (sixteen_of t)) 14 ∷ []) }
{
    device::test(device::remap_allowed(trace::sixteen_of(t)), Refusal::Remap)
}

// The tests of an activation behind settings with so many rows, if any stand.
#[tactic(auto, unfolding(device::specs::Refusal::first_failed, device::specs::Refusal::unless, device::specs::Refusal::refuse, canonical::specs::Writing::activation_fault, crate::specs::Answers::standing_of))]
fn test_activation(rows: Option<u32>, row: u32, hold: u32) -> Result<(), Refusal>
    ensures { refusal_number result ≡ activation_fault (standing_of rows) row hold }
{
    let rows = rows.ok_or(Refusal::Line)?;
    device::test(row < rows, Refusal::Row)?;
    device::test(device::hold_allowed(hold), Refusal::Hold)
}

// The tests of an event.
#[tactic(auto, unfolding(device::specs::Refusal::refuse, canonical::specs::Writing::event_fault, crate::specs::Answers::standing_of))]
fn test_event(rows: Option<u32>) -> Result<(), Refusal>
    ensures { refusal_number result ≡ event_fault (standing_of rows) }
{
    device::test(rows.is_some(), Refusal::Line)
}

// What an answer earns where it is to be written, behind settings with so many rows, if any stand.
#[tactic(auto, unfolding(canonical::specs::Writing::fault_to, trace::specs::Reading::said, device::specs::Refusal::outcome))]
pub fn test(rows: Option<u32>, answer: Read) -> Result<(), Refusal>
    ensures { refusal_number result ≡ fault (standing_of rows) (said answer).outcome }
{
    let Ok(says) = answer.outcome else {
        return Err(Refusal::Line);
    };
    match says {
        Record::Set(s) => device::test_settings(s),
        Record::Remap(t) => test_remap(t),
        Record::Activate(row, hold) => test_activation(rows, row, hold),
        Record::Refresh => test_event(rows),
        Record::Blank => Ok(()),
    }
}

// The rows of the settings that stand behind an answer, if any do.
#[tactic(auto, unfolding(crate::specs::Answers::stood, trace::specs::Reading::said, device::specs::Refusal::outcome))]
pub fn rows_behind(rows: Option<u32>, answer: Read) -> Option<u32>
    ensures { result ≡ stood rows (said answer).outcome }
{
    match answer.outcome {
        Ok(Record::Set(s)) => Some(s.rows),
        _ => rows,
    }
}

// The bytes of an activation's spelling.
fn activation_width(hold: u32) -> usize
    ensures { result ≡ cond (eqb hold 1) 8 14 }
{
    if hold == 1 { 8 } else { 14 }
}

// The bytes of an answer's spelling.
#[tactic(auto, using(canonical::proofs::Spelling::Lengths::length_settings_line, canonical::proofs::Spelling::Lengths::length_remap_line, canonical::proofs::Spelling::Lengths::length_activation_line, canonical::proofs::Spelling::Lengths::length_event_line), unfolding(canonical::specs::Spelling::answer_spelling, canonical::specs::Spelling::record_spelling, trace::specs::Reading::said, device::specs::Refusal::outcome))]
pub fn width(answer: Read) -> usize
    ensures { result ≡ length (answer_spelling (said answer).outcome) }
{
    let Ok(says) = answer.outcome else {
        return 0;
    };
    match says {
        Record::Set(_) => 44,
        Record::Remap(_) => 98,
        Record::Activate(_, hold) => activation_width(hold),
        Record::Refresh => 2,
        Record::Blank => 0,
    }
}

// A letter, numbers and byte 10, at a place; the place behind them.
fn print_line(out: &mut [u8], at: usize, letter: u8, numbers: &[u32]) -> usize
    requires { at + 6 * length numbers.now + 2 ≤ length out.old }
    ensures { PrintsInto out at (spelled_line letter numbers.now) result }
{
    let place = columns::print_byte(out, at, letter);
    let end = columns::print_numbers(out, place, numbers, numbers.len());
    columns::print_byte(out, end, b'\n')
}

// The line of settings.
#[tactic(auto, unfolding(canonical::specs::Spelling::settings_numbers))]
fn print_settings(out: &mut [u8], at: usize, s: Settings) -> usize
    requires { at + 44 ≤ length out.old }
    ensures { PrintsInto out at (spelled_line letter_S (settings_numbers s)) result }
{
    let numbers = [
        s.rows,
        s.blast_diameter,
        s.volume,
        s.counters,
        s.interval,
        s.window,
        s.block,
    ];
    print_line(out, at, b'S', &numbers)
}

// The line of an activation.
#[tactic(auto, using(canonical::proofs::Spelling::Lengths::length_activation_line), unfolding(canonical::specs::Spelling::activation_spelling))]
fn print_activation(out: &mut [u8], at: usize, row: u32, hold: u32) -> usize
    requires { at + length (activation_spelling row hold) ≤ length out.old }
    ensures { PrintsInto out at (activation_spelling row hold) result }
{
    if hold == 1 {
        return print_line(out, at, b'A', &[row]);
    }
    print_line(out, at, b'H', &[row, hold])
}

// The spelling of a record.
#[tactic(auto, using(columns::proofs::Output::prints_nothing, canonical::proofs::Spelling::Lengths::length_settings_line, canonical::proofs::Spelling::Lengths::length_remap_line, canonical::proofs::Spelling::Lengths::length_event_line), unfolding(canonical::specs::Spelling::record_spelling))]
fn print_record(out: &mut [u8], at: usize, line: Record) -> usize
    requires { at + length (record_spelling line) ≤ length out.old }
    ensures { PrintsInto out at (record_spelling line) result }
{
    match line {
        Record::Set(s) => print_settings(out, at, s),
        Record::Remap(t) => print_line(out, at, b'F', &trace::sixteen_of(t)),
        Record::Activate(row, hold) => print_activation(out, at, row, hold),
        Record::Refresh => print_line(out, at, b'R', &[]),
        Record::Blank => at,
    }
}

// The spelling of an answer, at a place; the place behind it.
#[tactic(auto, using(columns::proofs::Output::prints_nothing), unfolding(canonical::specs::Spelling::answer_spelling, trace::specs::Reading::said, device::specs::Refusal::outcome))]
pub fn print_answer(out: &mut [u8], at: usize, answer: Read) -> usize
    requires { at + length (answer_spelling (said answer).outcome) ≤ length out.old }
    ensures { PrintsInto out at (answer_spelling (said answer).outcome) result }
{
    match answer.outcome {
        Ok(says) => print_record(out, at, says),
        Err(_) => at,
    }
}
