// The trace writer: from the reader's answers to the one spelling of a trace, in a lent text.
#![tactic(auto)]

ghost use Rattle.std.specs.Prelude.{◌≡◌, ◌≤◌, length};
ghost use Rattle.device.specs.Acceptance.{most_rows};
ghost use Rattle.device.specs.Refusal.{refusal_number};
ghost use Rattle.columns.specs.Output.{PrintsInto};
ghost use Rattle.canonical.specs.Spelling.{spelling};
ghost use Rattle.canonical.specs.Writing.{writing_fault_to, writing};
ghost use Rattle.writer.specs.Answers.{outcomes_of, write_left};

use device::Refusal;
use trace::Read;

// The first pass: it tests the answers, and last whether their bytes fit a text of so many. The bytes stop at the highest number, which no text has.
#[tactic(auto, using(crate::proofs::Faults::surveyed_none, crate::proofs::Faults::surveyed_fault, crate::proofs::Faults::surveyed_all))]
fn survey(answers: &[Read], room: usize) -> Result<(), Refusal>
    requires { room ≤ 9223372036854775807 }
    ensures { refusal_number result ≡ writing_fault_to most_rows (outcomes_of answers.now) room }
{
    let mut rows = None;
    let mut bytes: usize = 0;
    'answers: for answer in answers {
        spelling::test(rows, *answer)?;
        rows = spelling::rows_behind(rows, *answer);
        bytes = bytes.saturating_add(spelling::width(*answer));
    }
    device::test(bytes <= room, Refusal::Room)
}

// The second pass: it writes the answers; the place behind them.
#[tactic(auto, using(crate::proofs::Prints::printed_none, crate::proofs::Prints::printed_next))]
fn print_answers(answers: &[Read], text: &mut [u8]) -> usize
    requires { length (spelling (outcomes_of answers.now)) ≤ length text.old }
    ensures { PrintsInto text 0 (spelling (outcomes_of answers.now)) result }
{
    let mut at: usize = 0;
    'answers: for answer in answers {
        at = spelling::print_answer(text, at, *answer);
    }
    at
}

// Writes the one spelling of the reader's answers to the front of a lent text; the number of bytes written.
#[tactic(auto, using(crate::proofs::Faults::fits, crate::proofs::Faults::writing_refused, crate::proofs::Faults::writing_done), unfolding(device::specs::Refusal::outcome))]
pub fn write(answers: &[Read], text: &mut [u8]) -> Result<usize, Refusal>
    ensures { write_left result text ≡ writing (outcomes_of answers.now) text.old }
{
    survey(answers, text.len())?;
    Ok(print_answers(answers, text))
}
