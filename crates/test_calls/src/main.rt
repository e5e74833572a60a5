// Answers calls of the tracker from standard input, one answer for each whole request, for tests/calls/compare.py,
// which has the layout of both. All numbers are words of four bytes, the lowest first.
#![tactic(auto)]

ghost use Rattle.std.specs.Prelude.{◌+◌, ◌≤◌, length};

use device::{Refusal, Settings};
use tracker::{Position, Refused};

// The numbers of standard input and output.
const STDIN_FILENO: i32 = 0;

const STDOUT_FILENO: i32 = 1;

// The words of a request and of an answer.
const REQUEST_WORDS: usize = 350;

const ANSWER_WORDS: usize = 166;

// An answer begins with the refusal or 0, the value, and the position after.
const HEAD_WORDS: usize = 6;

// The words of a request's bytes.
fn fill_words(words: &mut [u32; REQUEST_WORDS], bytes: &[u8; 4 * REQUEST_WORDS]) {
    for i in 0..REQUEST_WORDS {
        let at = 4 * i;
        words[i] = u32::from_le_bytes([bytes[at], bytes[at + 1], bytes[at + 2], bytes[at + 3]]);
    }
}

// Words into an answer's bytes, from a word's place on.
fn put_words(bytes: &mut [u8; 4 * ANSWER_WORDS], at: usize, words: &[u32])
    requires { at + length words.now ≤ 166 }
{
    for i in 0..words.len() {
        let from = 4 * (at + i);
        bytes[from..from + 4].copy_from_slice(&words[i].to_le_bytes());
    }
}

fn settings_of(words: &[u32]) -> Settings
    requires { 7 ≤ length words.now }
{
    Settings {
        rows: words[0],
        blast_diameter: words[1],
        volume: words[2],
        counters: words[3],
        interval: words[4],
        window: words[5],
        block: words[6],
    }
}

fn position_of(words: &[u32]) -> Position
    requires { 4 ≤ length words.now }
{
    Position {
        events: words[0],
        activations: words[1],
        tracked: words[2],
        spillover: words[3],
    }
}

// So many words of a request from a place on.
fn words_at<const N: usize>(request: &[u32; REQUEST_WORDS], at: usize) -> [u32; N]
    requires { at + N ≤ 350 }
{
    let mut words = [0; N];
    words.copy_from_slice(&request[at..at + N]);
    words
}

fn head(refusal: u32, value: u32, p: Position) -> [u32; HEAD_WORDS] {
    [
        refusal,
        value,
        p.events,
        p.activations,
        p.tracked,
        p.spillover,
    ]
}

// The head of an answer that refuses and hands a position back.
fn refused_head(refused: Refused) -> [u32; HEAD_WORDS] {
    head(refused.refusal.number(), 0, refused.position)
}

// The head of an answer that leaves the position as it was.
fn value_head(answer: Result<u32, Refusal>, p: Position) -> [u32; HEAD_WORDS] {
    match answer {
        Ok(value) => head(0, value, p),
        Err(refusal) => head(refusal.number(), 0, p),
    }
}

fn call_set_up(
    request: &[u32; REQUEST_WORDS],
    rows: &mut [u32],
    counts: &mut [u32],
) -> [u32; HEAD_WORDS] {
    let s = settings_of(&request[1..8]);
    match tracker::set_up(s, words_at(request, 317), rows, counts) {
        Ok(p) => head(0, 0, p),
        Err(refusal) => [refusal.number(), 0, 0, 0, 0, 0],
    }
}

fn call_activate(
    request: &[u32; REQUEST_WORDS],
    rows: &mut [u32],
    counts: &mut [u32],
) -> [u32; HEAD_WORDS] {
    let s = settings_of(&request[1..8]);
    let p = position_of(&request[8..12]);
    let remap = words_at(request, 317);
    match tracker::activate(s, remap, rows, counts, p, request[12], request[333]) {
        Ok(p) => head(0, 0, p),
        Err(refused) => refused_head(refused),
    }
}

fn call_refresh(
    request: &[u32; REQUEST_WORDS],
    rows: &mut [u32],
    counts: &mut [u32],
    picks: &mut [u32],
) -> [u32; HEAD_WORDS] {
    let s = settings_of(&request[1..8]);
    let p = position_of(&request[8..12]);
    match tracker::refresh(s, rows, counts, p, picks) {
        Ok(refreshed) => head(0, refreshed.count, refreshed.position),
        Err(refused) => refused_head(refused),
    }
}

// Both calls that compare with the request's second state.
fn call_agree(request: &[u32; REQUEST_WORDS], rows: &[u32], counts: &[u32]) -> [u32; HEAD_WORDS] {
    let s = settings_of(&request[1..8]);
    let p = position_of(&request[8..12]);
    let s2 = settings_of(&request[176..183]);
    let p2 = position_of(&request[183..187]);
    let rows2 = &request[189..253][..length_of(request[187], 64)];
    let counts2 = &request[253..317][..length_of(request[188], 64)];
    let answer = if request[0] == 3 {
        let remap = words_at(request, 317);
        let remap2 = words_at(request, 334);
        agreement::agree(s, remap, rows, counts, p, s2, remap2, rows2, counts2, p2)
    } else {
        agreement::estimates_agree(s, rows, counts, p, s2, rows2, counts2, p2)
    };
    value_head(answer.map(u32::from), p)
}

fn call_row_limit(request: &[u32; REQUEST_WORDS]) -> [u32; HEAD_WORDS] {
    let s = settings_of(&request[1..8]);
    let p = position_of(&request[8..12]);
    let answer = rowlimit::row_limit(s, words_at(request, 317), request[12], p);
    // A figure that is too large for a word becomes the largest word, which no figure is.
    value_head(
        answer.map(|figure| u32::try_from(figure).unwrap_or(u32::MAX)),
        p,
    )
}

// A length, cut to the most allowed.
fn length_of(word: u32, most: usize) -> usize
    ensures { result ≤ most }
{
    (word as usize).min(most)
}

// Makes the call that the request names; one that is none of the six is taken as that for a row's figure.
fn call(
    request: &[u32; REQUEST_WORDS],
    rows: &mut [u32],
    counts: &mut [u32],
    picks: &mut [u32],
) -> [u32; HEAD_WORDS] {
    match request[0] {
        0 => call_set_up(request, rows, counts),
        1 => call_activate(request, rows, counts),
        2 => call_refresh(request, rows, counts, picks),
        3 | 5 => call_agree(request, rows, counts),
        _ => call_row_limit(request),
    }
}

// The answer to one request, which lends parts of the tables and of the picks.
fn serve(request: &[u32; REQUEST_WORDS], answer: &mut [u8; 4 * ANSWER_WORDS]) {
    let mut rows: [u32; 64] = words_at(request, 16);
    let mut counts: [u32; 64] = words_at(request, 80);
    let mut picks: [u32; 32] = words_at(request, 144);
    let lent = length_of(request[13], 64);
    let lent_counts = length_of(request[14], 64);
    let lent_picks = length_of(request[15], 32);
    let head = call(
        request,
        &mut rows[..lent],
        &mut counts[..lent_counts],
        &mut picks[..lent_picks],
    );
    put_words(answer, 0, &head);
    put_words(answer, 6, &rows);
    put_words(answer, 70, &counts);
    put_words(answer, 134, &picks);
}

// Reads one request and writes its answer; whether there was a whole one.
fn serve_next() -> bool {
    let mut request = [0; 4 * REQUEST_WORDS];
    if io::read_full(STDIN_FILENO, &mut request) < request.len() {
        return false;
    }
    let mut words = [0; REQUEST_WORDS];
    fill_words(&mut words, &request);
    let mut answer = [0; 4 * ANSWER_WORDS];
    serve(&words, &mut answer);
    io::write_all(STDOUT_FILENO, &answer)
}

// A proved loop has to end, so it counts its turns down from a number that no run uses up.
fn main() {
    for _ in 0..u64::MAX {
        if !serve_next() {
            break;
        }
    }
}
