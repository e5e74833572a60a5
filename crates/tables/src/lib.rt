// One lent table of numbers, of which the first places are used: find, put in, take out, clear.
#![tactic(auto)]

ghost use Rattle.std.specs.Prelude.{◌≡◌, ◌≤◌, ◌<◌, length, take, replicate};
ghost use Rattle.tables.specs.InnerContracts.{Rising, lower_place, equal_place, highest_place, put_in, taken_at};

// Where x belongs among the used places, which ascend: how many of them are below x. By bisection.
pub fn lower_bound(t: &[u32], used: usize, x: u32) -> usize
    requires { (used ≤ length t.now) × Rising (take used t.now) }
    ensures { result ≡ lower_place x (take used t.now) }
{
    t[..used].partition_point(|y| *y < x)
}

// The first used place that holds x, or the number of used places.
pub fn first_equal(t: &[u32], used: usize, x: u32) -> usize
    requires { used ≤ length t.now }
    ensures { result ≡ equal_place x (take used t.now) }
{
    t[..used].iter().position(|y| *y == x).unwrap_or(used)
}

// The first used place of the highest number.
pub fn first_highest(t: &[u32], used: usize) -> usize
    requires { (0 < used) × (used ≤ length t.now) }
    ensures { result ≡ highest_place (take used t.now) }
{
    let mut place = 0;
    for i in 1..used {
        if t[place] < t[i] {
            place = i;
        }
    }
    place
}

// x is put in at a place of the used ones.
pub fn insert_at(t: &mut [u32], used: usize, at: usize, x: u32)
    requires { (at ≤ used) × (used < length t.old) }
    ensures { t.new ≡ put_in t.old used at x }
{
    t.copy_within(at..used, at + 1);
    t[at] = x;
}

// A place of the used ones is taken out.
pub fn remove_at(t: &mut [u32], used: usize, at: usize)
    requires { (at < used) × (used ≤ length t.old) }
    ensures { t.new ≡ taken_at t.old used at }
{
    t.copy_within(at + 1..used, at);
    t[used - 1] = 0;
}

// 0 everywhere.
pub fn clear(t: &mut [u32])
    ensures { t.new ≡ replicate (length t.old) 0 }
{
    t.fill(0);
}
