// Numbers in columns, read from lent text and printed into a lent buffer; and the line of a refusal.
#![tactic(auto)]

ghost use Rattle.std.specs.Prelude.{◌≡◌, ◌+◌, ◌*◌, ◌≤◌, ◌<◌, ◌==◌, not, [], ◌∷◌, length, take, position};
ghost use Rattle.columns.specs.Numbers.{digits, number, field, digit_or_blank, printed, written};
ghost use Rattle.columns.specs.Answers.{found};
ghost use Rattle.columns.specs.Output.{number_columns, refusal_line, PrintsInto};

// How wide a number is.
pub const COLUMNS: usize = 6;

// Line numbers are printed modulo this.
pub const LINES: u64 = 10_000_000_000;

// The number that digits make.
fn read_digits(columns: &[u8]) -> Option<u32>
    requires { length columns.now ≤ 6 }
    ensures { found result ≡ digits 0 columns.now }
{
    let mut n: u32 = 0;
    for b in columns {
        if !b.is_ascii_digit() {
            return None;
        }
        n = n * 10 + (*b - b'0') as u32;
    }
    Some(n)
}

// The first column that holds no blank.
fn behind_blanks(columns: &[u8]) -> Option<usize>
    ensures { result ≡ position (λ b. not (b == 32)) columns.now }
{
    columns.iter().position(|b| *b != b' ')
}

// The number in a field's columns: blanks, then digits.
#[tactic(auto, using(crate::proofs::Numbers::Digits::positions), unfolding(crate::specs::Answers::found))]
fn read_padded(columns: &[u8]) -> Option<u32>
    requires { length columns.now ≤ 6 }
    ensures { found result ≡ number columns.now }
{
    let first = behind_blanks(columns)?;
    read_digits(&columns[first..])
}

// The number in the 6 columns from a place on. One of four or five digits, as most rows are, is read without a search for the first digit.
#[inline]
#[tactic(auto, using(crate::proofs::Numbers::LastFour::last_four), unfolding(crate::specs::Answers::found))]
pub fn read_number(text: &[u8], from: usize) -> Option<u32>
    requires { from + 6 ≤ length text.now }
    ensures { found result ≡ field from text.now }
{
    let columns = &text[from..from + COLUMNS];
    let Some(low) = read_digits(&columns[2..]) else {
        return read_padded(columns);
    };
    if columns[0] != b' ' {
        return read_padded(columns);
    }
    let first = columns[1];
    if first == b' ' {
        return Some(low);
    }
    if !first.is_ascii_digit() {
        return None;
    }
    Some((first - b'0') as u32 * 10000 + low)
}

// A column in front of the last, with what is left of the number there.
#[tactic(auto, using(crate::proofs::Numbers::Printed::digit_or_blank_is), unfolding(crate::specs::Numbers::digit_or_blank))]
fn digit_or_blank(left: u64) -> u8
    ensures { result ≡ digit_or_blank left }
{
    if left == 0 {
        b' '
    } else {
        (b'0' as u64 + left % 10) as u8
    }
}

// n right-justified in so many columns of the buffer, from a place on; of a number with more digits, the lowest.
pub fn print_number(out: &mut [u8], at: usize, columns: usize, n: u64)
    requires { at + columns ≤ length out.old }
    ensures { out.new ≡ written out.old at (printed columns n) }
{
    if columns == 0 {
        return;
    }
    let last = at + columns - 1;
    out[last] = (b'0' as u64 + n % 10) as u8;
    let mut left = n / 10;
    for i in (at..last).rev() {
        out[i] = digit_or_blank(left);
        left /= 10;
    }
}

// A byte at a place; the place behind it.
#[tactic(auto, using(crate::proofs::Output::prints_byte))]
pub fn print_byte(out: &mut [u8], at: usize, b: u8) -> usize
    requires { at < length out.old }
    ensures { PrintsInto out at (b ∷ []) result }
{
    out[at] = b;
    at + 1
}

// A number in so many columns; the place behind it.
#[tactic(auto, using(crate::proofs::Numbers::Printed::length_printed))]
pub fn print_columns(out: &mut [u8], at: usize, columns: usize, n: u64) -> usize
    requires { at + columns ≤ length out.old }
    ensures { PrintsInto out at (printed columns n) result }
{
    print_number(out, at, columns, n);
    at + columns
}

// The first numbers of a list, 6 columns each; the place behind them.
pub fn print_numbers(out: &mut [u8], at: usize, numbers: &[u32], count: usize) -> usize
    requires { (count ≤ length numbers.now) × (at + 6 * count ≤ length out.old) }
    ensures { PrintsInto out at (number_columns (take count numbers.now)) result }
{
    let mut place = at;
    for n in &numbers[..count] {
        place = print_columns(out, place, COLUMNS, *n as u64);
    }
    place
}

// The line of a refused line, by its number.
#[tactic(auto, using(crate::proofs::Numbers::Printed::length_printed))]
pub fn print_refusal(out: &mut [u8], at: usize, line: u64, k: u32) -> usize
    requires { at + 18 ≤ length out.old }
    ensures { PrintsInto out at (refusal_line line k) result }
{
    let numbers = print_byte(out, at, b'X');
    let refusal = print_columns(out, numbers, 10, line % LINES);
    let end = print_columns(out, refusal, 6, k as u64);
    print_byte(out, end, b'\n')
}
