// The state that the caller lends, and the rules of a valid one, tested on the lent tables.
#![tactic(auto)]

ghost use Rattle.std.specs.Prelude.{◌≡◌, ◌&&◌, ◌≤◌, leb, length, take, drop};
ghost use Rattle.state.specs.State.{most_count, zeros, ascending, counts_allowed, position_allowed, valid, tables_long, lent};

use device::Settings;

// Where a tracker stands: events so far in this window, activations since the last event, counted by their units, tracked rows, spillover.
#[derive(Clone, Copy, PartialEq, Eq)]
pub struct Position {
    pub events: u32,
    pub activations: u32,
    pub tracked: u32,
    pub spillover: u32,
}

// No count and no spillover of a valid state is above it.
const MOST_COUNT: u32 = 2000000000;

// Whether both tables are as long as there are counters.
#[tactic(auto, unfolding(crate::specs::State::tables_long))]
pub fn tables_long(s: Settings, rows: &[u32], counts: &[u32]) -> bool
    ensures { result ≡ tables_long s rows.now counts.now }
{
    rows.len() == s.counters as usize && counts.len() == s.counters as usize
}

// Whether only zeros stand in a part of a table.
fn only_zeros(part: &[u32]) -> bool
    ensures { result ≡ zeros part.now }
{
    part.iter().all(|number| *number == 0)
}

// Whether rows ascend strictly and stay below the bank's end.
#[tactic(auto, unfolding(crate::specs::State::ascending))]
fn ascending_rows(rows: &[u32], high: u32) -> bool
    ensures { result ≡ ascending 0 high rows.now }
{
    let mut low: u32 = 0;
    for row in rows {
        if *row < low || high <= *row {
            return false;
        }
        low = *row + 1;
    }
    true
}

// Whether a tracked count may stand: not 0, not below the spillover, not too high.
fn count_in_range(count: u32, spillover: u32) -> bool
    ensures { result ≡ (leb 1 count && leb spillover count && leb count most_count) }
{
    1 <= count && spillover <= count && count <= MOST_COUNT
}

// Whether counts are all in range.
fn counts_in_range(counts: &[u32], spillover: u32) -> bool
    ensures { result ≡ counts_allowed spillover counts.now }
{
    counts.iter().all(|count| count_in_range(*count, spillover))
}

// Whether the rows' table may stand: so many rows at the front in order, zeros behind.
fn rows_laid(t: &[u32], used: usize, high: u32) -> bool
    requires { used ≤ length t.now }
    ensures { result ≡ (ascending 0 high (take used t.now) && zeros (drop used t.now)) }
{
    ascending_rows(&t[..used], high) && only_zeros(&t[used..])
}

// Whether the counts' table may stand: so many counts at the front in range, zeros behind.
fn counts_laid(t: &[u32], used: usize, spillover: u32) -> bool
    requires { used ≤ length t.now }
    ensures { result ≡ (zeros (drop used t.now) && counts_allowed spillover (take used t.now)) }
{
    only_zeros(&t[used..]) && counts_in_range(&t[..used], spillover)
}

// Whether each number of the position is in its range.
pub fn position_in_range(s: Settings, p: Position) -> bool
    ensures { result ≡ position_allowed s p }
{
    p.events < s.window
        && p.activations <= s.interval
        && p.tracked <= s.counters
        && p.spillover <= MOST_COUNT
}

// Whether a state of tables of the right length breaks no rule.
#[tactic(auto, using(crate::proofs::PositionAllowed::position_facts), unfolding(crate::specs::State::valid))]
pub fn valid_state(s: Settings, rows: &[u32], counts: &[u32], p: Position) -> bool
    requires { (length rows.now ≡ s.counters) × (length counts.now ≡ s.counters) }
    ensures { result ≡ valid s (record { rows = rows.entry.now; counts = counts.now; position = p }) }
{
    let k = p.tracked as usize;
    position_in_range(s, p) && rows_laid(rows, k, s.rows) && counts_laid(counts, k, p.spillover)
}

// Whether tables and position may be a tracker's: both tables as long as there are counters, and no rule broken.
#[tactic(auto, using(crate::proofs::Valid::tables_long_fit), unfolding(crate::specs::State::given))]
pub fn valid_memory(s: Settings, rows: &[u32], counts: &[u32], p: Position) -> bool
    ensures { result ≡ (tables_long s rows.now counts.now && valid s (lent rows.now counts.now p)) }
{
    tables_long(s, rows, counts) && valid_state(s, rows, counts, p)
}
