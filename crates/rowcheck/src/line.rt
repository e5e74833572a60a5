// The answer on standard output, as bytes in a lent array.
ghost use Rattle.std.specs.Prelude.{[], ◌∷◌, ◌++◌, suc, ◌+◌, ◌≤◌, length};
ghost use Rattle.columns.specs.Output.{Prints, PrintsInto};
ghost use Rattle.rowcheck.specs.Answers.{decimal, departs_words, answer_line};
ghost use Rattle.rowcheck.specs.InnerContracts.{most_lines};

use crate::{Answer, Check};

// Prints a text at a place of a buffer; the place behind it.
#[tactic(auto, using(crate::proofs::Lines::prints_copied))]
fn print_text(out: &mut [u8], at: usize, text: &[u8]) -> usize
    requires { at + length text.now ≤ length out.old }
    ensures { PrintsInto out at text.now result }
{
    let end = at + text.len();
    out[at..end].copy_from_slice(text);
    end
}

// Prints a number without blanks or leading zeros.
fn print_decimal(out: &mut [u8], at: usize, n: u64) -> usize
    requires { at + 20 ≤ length out.old }
    ensures { PrintsInto out at (decimal n) result }
{
    let mut digits = [0u8; 20];
    let count = io::decimal(n, &mut digits);
    print_text(out, at, &digits[..count])
}

// Prints the line of a departure behind so many lines that were the same.
fn print_departure(out: &mut [u8], lines: u64) -> usize
    requires { (lines ≤ most_lines) × (37 ≤ length out.old) }
    ensures { PrintsInto out 0 (departs_words ++ decimal (suc lines) ++ 10 ∷ []) result }
{
    let number = print_text(out, 0, b"departs at line ");
    let end = print_decimal(out, number, lines + 1);
    print_text(out, end, b"\n")
}

// What a check has come to, from the array's front on: how many bytes.
#[tactic(auto, unfolding(crate::specs::Answers::answer_line, crate::specs::Answers::line_of, crate::specs::Answers::passes_line), using(columns::proofs::Output::prints_nothing))]
pub fn answer_line(k: Check, out: &mut [u8; 37]) -> usize
    requires { k.lines ≤ most_lines }
    ensures { Prints out.old 0 (answer_line k) out.new result }
{
    match k.answer {
        Answer::Passes => print_text(out, 0, b"passes\n"),
        Answer::Departs => print_departure(out, k.lines),
        Answer::Open | Answer::TraceFailed | Answer::ListingFailed => 0,
    }
}
