// A device: its settings with their tests, where a logical row lies on the die, for how many units it may be held open, and how far a row reaches in
// its subarray.
#![tactic(auto)]

mod refusal;

ghost use Rattle.std.specs.Prelude.{◌≡◌, ◌<◌, ◌+◌, ◌-◌, ◌*◌, min, max, true, leb};
ghost use Rattle.device.specs.Refusal.{first_failed, refusal_number};
ghost use Rattle.device.specs.Acceptance.{most_rows, within, rows_allowed, diameter_allowed, block_allowed, settings_tests, settings_tests_with, settings_tests_but_counters};
ghost use Rattle.device.specs.Remap.{own_remap, occurs_in, remap_allowed, physical};
ghost use Rattle.device.specs.Hold.{hold_allowed};
ghost use Rattle.device.specs.Victims.{subarray_rows, subarray_start};

pub use refusal::{Refusal, test};

// The most rows of a bank and the most counters that settings may name.
pub const MOST_ROWS: u32 = 262144;

pub const MOST_COUNTERS: u32 = 2048;

// The settings in document 01's order.
#[derive(Clone, Copy, PartialEq, Eq)]
pub struct Settings {
    // N, 'rows in the bank'.
    pub rows: u32,
    // B, 'blast diameter: rows disturbed, half on each side'.
    pub blast_diameter: u32,
    // V, 'rows picked at an event'.
    pub volume: u32,
    // C, 'counters': the places of each lent table.
    pub counters: u32,
    // T, 'activations between two events'.
    pub interval: u32,
    // n, 'events in a window'.
    pub window: u32,
    // P, 'rows of the regular refresh at each event'.
    pub block: u32,
}

#[tactic(auto, unfolding(crate::specs::Acceptance::within))]
fn is_within(low: u32, high: u32, x: u32) -> bool
    ensures { result ≡ within low high x }
{
    low <= x && x <= high
}

#[tactic(auto, unfolding(crate::specs::Acceptance::rows_allowed_to))]
fn rows_in_range(n: u32) -> bool
    ensures { result ≡ rows_allowed n }
{
    is_within(16, MOST_ROWS, n) && n % 16 == 0
}

#[tactic(auto, unfolding(crate::specs::Acceptance::diameter_allowed))]
fn diameter_in_range(b: u32) -> bool
    ensures { result ≡ diameter_allowed b }
{
    b == 2 || b == 4
}

// Whether p rows at each of n events come to all the rows. The product of any two 32-bit numbers fits 64 bits.
fn covers(p: u32, n: u32, rows: u32) -> bool
    ensures { result ≡ leb rows (p * n) }
{
    rows as u64 <= (p as u64) * (n as u64)
}

#[tactic(auto, unfolding(crate::specs::Acceptance::block_allowed))]
fn block_in_range(p: u32, n: u32, rows: u32) -> bool
    ensures { result ≡ block_allowed p n rows }
{
    is_within(1, 64, p) && covers(p, n, rows)
}

// The settings' tests in their order, the one of the counter count given by its outcome.
#[tactic(auto, unfolding(crate::specs::Refusal::first_failed, crate::specs::Refusal::unless, crate::specs::Refusal::refuse, crate::specs::Acceptance::settings_tests_with))]
fn test_with(s: Settings, counters_in_range: bool) -> Result<(), Refusal>
    ensures { refusal_number result ≡ first_failed (settings_tests_with most_rows counters_in_range s) }
{
    test(rows_in_range(s.rows), Refusal::Rows)?;
    test(diameter_in_range(s.blast_diameter), Refusal::BlastDiameter)?;
    test(is_within(1, 16, s.volume), Refusal::Volume)?;
    test(counters_in_range, Refusal::Counters)?;
    test(is_within(1, 4096, s.interval), Refusal::Interval)?;
    test(is_within(1, 8192, s.window), Refusal::Window)?;
    test(block_in_range(s.block, s.window, s.rows), Refusal::Block)
}

// The settings' tests: refused with 1 to 7, or accepted.
#[tactic(auto, unfolding(crate::specs::Acceptance::settings_tests_to))]
pub fn test_settings(s: Settings) -> Result<(), Refusal>
    ensures { refusal_number result ≡ first_failed (settings_tests s) }
{
    test_with(s, is_within(s.volume, MOST_COUNTERS, s.counters))
}

// The same where no counter count is given: `counters` is not looked at, and 4 is not given.
#[tactic(auto, unfolding(crate::specs::Acceptance::settings_tests_but_counters_to))]
pub fn test_settings_but_counters(s: Settings) -> Result<(), Refusal>
    ensures { refusal_number result ≡ first_failed (settings_tests_but_counters s) }
{
    test_with(s, true)
}

const OWN_REMAP: [u32; 16] = [0, 1, 3, 2, 4, 5, 7, 6, 8, 9, 11, 10, 12, 13, 15, 14];

// Our own remap, in force until another is loaded.
#[tactic(auto, unfolding(crate::specs::Remap::own_remap))]
pub fn own_remap() -> [u32; 16]
    ensures { result ≡ own_remap }
{
    OWN_REMAP
}

// Whether a number occurs in a remap. It looks at every place, so that the compiler can look at several at once.
#[tactic(auto, unfolding(crate::specs::Remap::occurs_in))]
fn occurs(remap: [u32; 16], k: u32) -> bool
    ensures { result ≡ occurs_in 16 remap k }
{
    let mut found = false;
    for number in remap {
        found |= number == k;
    }
    found
}

// Whether a remap is accepted: each of 0 to 15 occurs in it.
pub fn remap_allowed(remap: [u32; 16]) -> bool
    ensures { result ≡ remap_allowed remap }
{
    (0..16).all(|k| occurs(remap, k))
}

// The physical row of a logical row, by a remap that is accepted.
#[tactic(auto, using(crate::proofs::Remap::entry_below), unfolding(crate::specs::Remap::physical))]
pub fn physical_row(remap: [u32; 16], row: u32) -> u32
    requires { remap_allowed remap ≡ true }
    ensures { result ≡ physical remap row }
{
    row / 16 * 16 + remap[(row % 16) as usize]
}

// The most units of a hold.
const MOST_UNITS: u32 = 16;

// Whether a hold is accepted.
#[tactic(auto, unfolding(crate::specs::Hold::hold_allowed))]
pub fn hold_allowed(hold: u32) -> bool
    ensures { result ≡ hold_allowed hold }
{
    is_within(1, MOST_UNITS, hold)
}

// The rows of a subarray.
const SUBARRAY_ROWS: u32 = 512;

// The lowest row of a row's subarray that is at most so far below it.
pub fn lowest_within(row: u32, reach: u32) -> u32
    ensures { result ≡ max (subarray_start row) (row - reach) }
{
    row - (row % SUBARRAY_ROWS).min(reach)
}

// The highest row of a row's subarray that is at most so far above it; the bank may end before it.
pub fn highest_within(row: u32, reach: u32) -> u32
    ensures { result ≡ min (row + reach) (subarray_start row + subarray_rows - 1) }
{
    row + (SUBARRAY_ROWS - 1 - row % SUBARRAY_ROWS).min(reach)
}
