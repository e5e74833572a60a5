// Marks of the rows that have a count, 64 to a word, and marks of these words: stores that keep them, and the search that they shorten.
ghost use Rattle.std.specs.Prelude.{◌≡◌, ◌+◌, ◌*◌, ◌/◌, ◌≤◌, ◌<◌, length, get_or, set, replicate};
ghost use Rattle.device.specs.Acceptance.{most_rows};
ghost use Rattle.aids.specs.Marks.{row_words, with_mark, turned, Marked, Clear, Sought, FirstAt, EmptyFrom, Shows, at_number, in_use};

const ROWS: usize = 262_144;

const WORDS: usize = 4_096;

// A place is marked.
#[tactic(auto, using(crate::proofs::Bits::one_shifted), unfolding(crate::specs::Marks::with_mark))]
fn mark(marks: &mut [u64], place: usize)
    requires { place / 64 < length marks.old }
    ensures { marks.new ≡ with_mark marks.old place }
{
    marks[place / 64] |= 1 << (place % 64);
}

// A place's mark is turned; the word that it stands in then.
#[tactic(auto, using(crate::proofs::Bits::one_shifted), unfolding(crate::specs::Marks::turned))]
fn unmark(marks: &mut [u64], place: usize) -> u64
    requires { place / 64 < length marks.old }
    ensures { (marks.new ≡ turned marks.old place) × (result ≡ get_or marks.new (place / 64) 0) }
{
    marks[place / 64] ^= 1 << (place % 64);
    marks[place / 64]
}

// A row gets a count.
pub fn enter(counts: &mut [u32], marks: &mut [u64], row: usize, count: u32)
    requires { Marked counts.old marks.old × (row < most_rows) }
    ensures counts_after { counts.new ≡ set counts.old row count }
    ensures marked { Marked counts.new marks.new }
{
    counts[row] = count;
    mark(marks, row);
    mark(marks, ROWS + row / 64);
}

// A row that has a count has none then.
pub fn remove(counts: &mut [u32], marks: &mut [u64], row: usize)
    requires { Marked counts.old marks.old × (row < most_rows) × (0 < get_or counts.old row 0) }
    ensures counts_after { counts.new ≡ set counts.old row 0 }
    ensures marked { Marked counts.new marks.new }
{
    counts[row] = 0;
    if unmark(marks, row) == 0 {
        unmark(marks, ROWS + row / 64);
    }
}

// The first row at a count among those that a word shows.
fn first_in_word(counts: &[u32], word: u64, from: usize, count: u32, end: usize) -> Option<usize>
    requires { (length counts.now ≡ most_rows) × (end ≤ most_rows) × Shows (at_number counts.now count) word from end × Clear counts.now count from }
    ensures { Sought counts.now count end result }
{
    let mut left = word;
    let mut row = from;
    // The library has no iterator over a word's bits.
    while left != 0 {
        let k = u64::trailing_zeros(left);
        row += k as usize;
        if counts[row] == count {
            return Some(row);
        }
        row += 1;
        left = (left >> k) >> 1;
    }
    None
}

// The first row at a count among those of the words that a word of words shows.
fn first_in_words(
    counts: &[u32],
    marks: &[u64],
    word: u64,
    from: usize,
    count: u32,
    end: usize,
) -> Option<usize>
    requires { Marked counts.now marks.now × (0 < count) × (end ≤ row_words) × Shows (in_use marks.now) word from end × Clear counts.now count (from * 64) }
    ensures { Sought counts.now count (end * 64) result }
{
    let mut left = word;
    let mut w = from;
    // As over a word's bits above.
    while left != 0 {
        let k = u64::trailing_zeros(left);
        w += k as usize;
        if let Some(row) = first_in_word(counts, marks[w], w * 64, count, w * 64 + 64) {
            return Some(row);
        }
        w += 1;
        left = (left >> k) >> 1;
    }
    None
}

// The first row at a count; none before a row is, and no row from an end on has a count.
pub fn first_at(
    rows: usize,
    counts: &[u32],
    marks: &[u64],
    from: usize,
    count: u32,
) -> Option<usize>
    requires { Marked counts.now marks.now × (0 < count) × (rows ≤ most_rows) × EmptyFrom counts.now rows × Clear counts.now count from }
    ensures { FirstAt counts.now count result }
{
    if rows <= from {
        return None;
    }
    let w = from / 64;
    let word = marks[w] >> (from % 64);
    if let Some(row) = first_in_word(counts, word, from, count, w * 64 + 64) {
        return Some(row);
    }
    let mut next = w + 1;
    // The first turn goes on from within a word of words, which a range by steps cannot.
    while next * 64 < rows {
        let end = (next / 64 + 1) * 64;
        let word = marks[WORDS + next / 64] >> (next % 64);
        if let Some(row) = first_in_words(counts, marks, word, next, count, end) {
            return Some(row);
        }
        next = end;
    }
    None
}

// No row that a mark shows has a count then.
fn clear_marked(counts: &mut [u32], marks: &[u64])
    requires { Marked counts.old marks.now }
    ensures { (length counts.new ≡ most_rows) × EmptyFrom counts.new 0 }
{
    for w in 0..WORDS {
        if marks[w] != 0 {
            counts[w * 64..w * 64 + 64].fill(0);
        }
    }
}

// No place is marked then.
pub fn clear_marks(marks: &mut [u64])
    ensures { marks.new ≡ replicate (length marks.old) 0 }
{
    marks.fill(0);
}

// No row has a count then.
pub fn clear(counts: &mut [u32], marks: &mut [u64])
    requires { Marked counts.old marks.old }
    ensures { EmptyFrom counts.new 0 × Marked counts.new marks.new }
{
    clear_marked(counts, marks);
    clear_marks(marks);
}
