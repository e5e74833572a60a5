// Answers calls of the writer from standard input, one answer for each whole request, for tests/writer/compare.py,
// which has the layout of both. All numbers are words of four bytes, the lowest first.
#![tactic(auto)]

ghost use Rattle.std.specs.Prelude.{◌≡◌, ◌≤◌, ◌+◌, length, take};
ghost use Rattle.canonical.specs.Writing.{writing};
ghost use Rattle.writer.specs.Answers.{outcomes_of, write_left};

use device::Refusal;
use trace::Read;

// The numbers of standard input and output.
const STDIN_FILENO: i32 = 0;

const STDOUT_FILENO: i32 = 1;

// The length at a place, cut to the most allowed.
fn length_at(buf: &[u8], at: usize, most: usize) -> usize
    requires { (at ≤ 4) × (8 ≤ length buf.now) }
    ensures { result ≤ most }
{
    let word = u32::from_le_bytes([buf[at], buf[at + 1], buf[at + 2], buf[at + 3]]);
    (word as usize).min(most)
}

// Puts x at a place.
fn put_word(buf: &mut [u8], at: usize, x: u32)
    requires { (at ≤ 4) × (8 ≤ length buf.old) }
{
    buf[at..at + 4].copy_from_slice(&x.to_le_bytes());
}

// What the lent text holds before the call.
fn fill(places: &mut [u8]) {
    for (i, place) in places.iter_mut().enumerate() {
        *place = (i % 251) as u8;
    }
}

// How many lines a text has, at most 64.
fn line_count(text: &[u8]) -> usize
    ensures { result ≤ 64 }
{
    let mut place: usize = 0;
    for count in 0..64 {
        if text.len() <= place {
            return count;
        }
        place = trace::read_line(text, place).place;
    }
    64
}

// The reader's first 64 answers on a text; behind the text's end each is a refusal.
fn answers_of(text: &[u8]) -> [Read; 64] {
    let mut answers = [Read {
        outcome: Err(Refusal::Line),
        place: 0,
    }; 64];
    let mut place: usize = 0;
    for k in 0..64 {
        answers[k] = trace::read_line(text, place);
        place = answers[k].place;
    }
    answers
}

// Writes the first answers to the lent text.
fn call(answers: [Read; 64], count: usize, text: &mut [u8]) -> Result<usize, Refusal>
    requires { count ≤ 64 }
    ensures { write_left result text ≡ writing (outcomes_of (take count answers)) text.old }
{
    writer::write(&answers[..count], text)
}

// The head of an answer: 0 and the bytes written, or 1 and the refusal.
fn put_head(answer: &mut [u8], written: Result<usize, Refusal>)
    requires { 8 ≤ length answer.old }
{
    match written {
        Ok(n) => {
            put_word(answer, 0, 0);
            put_word(answer, 4, (n % 4294967296) as u32);
        }
        Err(refusal) => {
            put_word(answer, 0, 1);
            put_word(answer, 4, refusal.number());
        }
    }
}

// Makes the call on the parts of the trace and of the places that the request lends.
fn call_on_parts(request: &[u8], trace: &[u8], places: &mut [u8]) -> Result<usize, Refusal>
    requires { 8 ≤ length request.now }
{
    let n = length_at(request, 0, trace.len());
    let room = length_at(request, 4, places.len());
    let answers = answers_of(&trace[0..n]);
    let count = line_count(&trace[0..n]);
    fill(places);
    call(answers, count, &mut places[0..room])
}

// The answer to one request.
fn serve(request: &[u8], answer: &mut [u8])
    requires { (2056 ≤ length request.now) × (4104 ≤ length answer.old) }
{
    let written = call_on_parts(request, &request[8..2056], &mut answer[8..4104]);
    put_head(answer, written);
}

// Reads one request and writes its answer; whether there was a whole one.
fn serve_next() -> bool {
    let mut request = [0u8; 2056];
    let mut answer = [0u8; 4104];
    let got = io::read_full(STDIN_FILENO, &mut request);
    if got < 2056 {
        return false;
    }
    serve(&request, &mut answer);
    io::write_all(STDOUT_FILENO, &answer)
}

// A proved loop has to end, so it counts its turns to a number that no run comes to.
fn main() {
    for _ in 0..u64::MAX {
        if !serve_next() {
            break;
        }
    }
}
