// Reads a trace line by line: what a line says is printed, and the text behind it is handed on to the next call.
#![tactic(auto)]

ghost use Rattle.std.specs.Prelude.{◌≡◌, drop};
ghost use Rattle.trace.specs.Reading.{reading};
ghost use Rattle.lines.specs.Lines.{line_count};

use trace::{Read, Record};

// The number of standard output.
const STDOUT_FILENO: i32 = 1;

// Prints a word and a number.
fn print(word: &[u8], number: u64) {
    io::write_all(STDOUT_FILENO, word);
    io::print_decimal(STDOUT_FILENO, number);
}

// Prints what a record says.
fn print_record(says: Record) {
    match says {
        Record::Set(s) => print(b"settings, rows ", s.rows as u64),
        Record::Remap(t) => print(b"remap, row 0 to ", t.n0 as u64),
        Record::Activate(row, hold) => {
            print(b"activation of ", row as u64);
            print(b", units ", hold as u64);
        }
        Record::Refresh => {
            io::write_all(STDOUT_FILENO, b"refresh event");
        }
        Record::Blank => {
            io::write_all(STDOUT_FILENO, b"blank");
        }
    }
}

// Prints what a line says and how many bytes are behind it; these are handed on.
fn told<'a>(answer: Read, rest: &'a [u8]) -> &'a [u8]
    ensures { result.now ≡ rest.now }
{
    match answer.outcome {
        Ok(says) => print_record(says),
        Err(refusal) => print(b"refused ", refusal.number() as u64),
    }
    print(b"; bytes behind: ", rest.len() as u64);
    io::write_all(STDOUT_FILENO, b"\n");
    rest
}

// Prints what the first line of a text says; the text behind it.
fn first_line(text: &[u8]) -> &[u8]
    ensures { result.now ≡ drop (reading text.now 0).place text.now }
{
    let line = trace::next_line(text, 0);
    told(line.answer, line.rest)
}

// Prints what each line of a text says; how many lines there are.
fn all_lines(text: &[u8]) -> usize
    ensures { result ≡ line_count text.now }
{
    let mut left = text;
    let mut count: usize = 0;
    while !left.is_empty() {
        let behind = first_line(left);
        left = behind;
        count += 1;
    }
    count
}

// The trace of the paper, with a row held open, a remap, a blank line and a last line that has not ended behind it.
fn main() {
    let count = all_lines(
        b"S    16     2     1     2     4     4     4\nA     5\nA     5\nA     2\nR\nA    16\nH     5    16\nF    15    14    13    12    11    10     9     8     7     6     5     4     3     2     1     0\n\nA",
    );
    check::expect(count == 10);
}
