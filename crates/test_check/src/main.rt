// Checks a listing by the library's call, for tests/check/compare.py: standard input has the trace, a byte 0, and the listing, together at most 65,536 bytes.
#![tactic(auto)]

ghost use Rattle.std.specs.Prelude.{◌≤◌, length};

use checker::Departure;

// The numbers of standard input and output.
const STDIN_FILENO: i32 = 0;

const STDOUT_FILENO: i32 = 1;

// The place of the first byte 0, or the text's end.
fn first_zero(text: &[u8]) -> usize
    ensures { result ≤ length text.now }
{
    let mut i: usize = 0;
    while i < text.len() {
        if text[i] == 0 {
            return i;
        }
        i += 1;
    }
    i
}

// The place behind it, or the text's end.
fn behind(place: usize, length: usize) -> usize
    requires { place ≤ length }
    ensures { result ≤ length }
{
    if place < length {
        return place + 1;
    }
    place
}

// The answer's line.
fn print(answer: Result<(), Departure>) {
    match answer {
        Ok(()) => {
            io::write_all(STDOUT_FILENO, b"passes\n");
        }
        Err(departure) => {
            io::write_all(STDOUT_FILENO, b"departs at line ");
            io::print_decimal(STDOUT_FILENO, departure.line);
            io::write_all(STDOUT_FILENO, b"\n");
        }
    }
}

// Checks what is given behind the first byte 0 against what stands before it, in memory that held other numbers.
fn answer(text: &[u8]) {
    let zero = first_zero(text);
    let from = behind(zero, text.len());
    let mut counts = [7u32; 262_144];
    let mut marks = [7u64; 4_160];
    let mut bounds = [7u32; 4_160];
    let answer = checker::check(
        &text[0..zero],
        &text[from..],
        &mut counts,
        &mut marks,
        &mut bounds,
    );
    print(answer);
}

fn main() {
    let mut text = io::large_buffer();
    let length = io::read_full(STDIN_FILENO, &mut text);
    answer(&text[..length]);
}
