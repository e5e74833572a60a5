// Upper bounds of the counts of each block of 64 rows and of each group of 64 blocks: raised with a count, lowered where a search finds them too high.
ghost use Rattle.std.specs.Prelude.{◌≡◌, ◌≤◌, ◌<◌, length};
ghost use Rattle.device.specs.Acceptance.{most_rows};
ghost use Rattle.tables.specs.InnerContracts.{highest_place};
ghost use Rattle.aids.specs.Bounds.{Nested, Capped, Covers, Highest, Top, Tried};

const BLOCKS: usize = 4_096;

// A row's bounds rise to its count.
pub fn cover(bounds: &mut [u32], row: usize, count: u32)
    requires { (row < most_rows) × Nested bounds.old }
    ensures { Covers bounds.old bounds.new row count }
{
    let b = row / 64;
    bounds[b] = bounds[b].max(count);
    let g = BLOCKS + b / 64;
    bounds[g] = bounds[g].max(count);
}

// The highest number of those from one place on and below another.
fn highest(t: &[u32], from: usize, to: usize) -> u32
    requires { (from < to) × (to ≤ length t.now) }
    ensures { Highest t.now from to result }
{
    let mut best = t[from];
    for i in from + 1..to {
        best = best.max(t[i]);
    }
    best
}

// Its first place. Two passes, of which the longer one has no branch.
fn first_highest(t: &[u32], from: usize, to: usize) -> usize
    requires { (from < to) × (to ≤ length t.now) }
    ensures { Top t.now from to result }
{
    let best = highest(t, from, to);
    from + t[from..to].iter().position(|x| *x == best).unwrap()
}

// The first row of the highest count, or none where a bound was too high and is lowered.
fn try_top(counts: &[u32], bounds: &mut [u32]) -> Option<usize>
    requires { (length counts.now ≡ most_rows) × Capped counts.now bounds.old }
    ensures { Tried counts.now bounds.old bounds.new result }
{
    let g = first_highest(bounds, BLOCKS, BLOCKS + 64);
    let first = (g - BLOCKS) * 64;
    let b = first_highest(bounds, first, first + 64);
    let bound = bounds[b];
    if bound < bounds[g] {
        bounds[g] = bound;
        return None;
    }
    let row = first_highest(counts, b * 64, b * 64 + 64);
    let count = counts[row];
    if count < bound {
        bounds[b] = count;
        return None;
    }
    Some(row)
}

// The first row of the highest count.
pub fn top_row(counts: &[u32], bounds: &mut [u32]) -> usize
    requires { (length counts.now ≡ most_rows) × Capped counts.now bounds.old }
    ensures { (result ≡ highest_place counts.now) × (result < most_rows) × Capped counts.now bounds.new }
{
    loop {
        if let Some(row) = try_top(counts, bounds) {
            return row;
        }
    }
}
