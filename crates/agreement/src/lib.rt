// Whether two trackers agree, and whether their summaries give every row the same estimate. Neither call alters what it is lent, and each refuses
// what the documents refuse, in their order.
#![tactic(auto)]

mod estimates;

ghost use Rattle.std.specs.Prelude.{◌≡◌, ◌≤◌, ◌&&◌, not, length};
ghost use Rattle.device.specs.Refusal.{refuse, first_failed, refusal_number, outcome};
ghost use Rattle.state.specs.State.{lent};
ghost use Rattle.agreement.specs.Calls.{same_tracked, agreement_tests, estimates_tests, agreement_of, estimates_of};
ghost use Rattle.agreement.specs.InnerContracts.{both_tables_tests, memory, valid_memory};

use device::{Refusal, Settings};
use estimates::Tracked;
use state::Position;
use summary::Tally;

// The memory that a tracker is lent.
#[derive(Clone, Copy)]
struct Memory<'a> {
    rows: &'a [u32],
    counts: &'a [u32],
    position: Position,
}

impl<'a> Memory<'a> {
    // Its summary.
    fn tracked(self) -> Tracked<'a>
        requires { (self.position.tracked ≤ length self.rows.now) × (self.position.tracked ≤ length self.counts.now) }
        ensures { (result.rows ≡ self.entry.rows) × (result.counts ≡ self.entry.counts) × (result.tally.tracked ≡ self.entry.position.tracked) × (result.tally.spillover ≡ self.entry.position.spillover) }
    {
        Tracked {
            rows: self.rows,
            counts: self.counts,
            tally: Tally {
                tracked: self.position.tracked as usize,
                spillover: self.position.spillover,
            },
        }
    }
}

// The tests of both settings and of the lent tables.
#[tactic(auto, using(crate::proofs::Calls::Tests::both_tables_tested, device::proofs::Tests::or_later_first, device::proofs::Tests::number_not_0), unfolding(device::specs::Refusal::refuse, device::proofs::Tests::or_later))]
fn test_tables(s: Settings, m: Memory, s2: Settings, m2: Memory) -> Result<(), Refusal>
    ensures { refusal_number result ≡ first_failed (both_tables_tests s m.entry.rows.now m.entry.counts.now s2 m2.entry.rows.now m2.entry.counts.now) }
{
    device::test_settings(s)?;
    device::test_settings(s2)?;
    device::test(state::tables_long(s, m.rows, m.counts), Refusal::Tables)?;
    device::test(state::tables_long(s2, m2.rows, m2.counts), Refusal::Tables)
}

// The tests of both states.
#[tactic(auto, unfolding(device::specs::Refusal::refuse, state::specs::State::given))]
fn test_states(s: Settings, m: Memory, s2: Settings, m2: Memory) -> Result<(), Refusal>
    ensures { refusal_number result ≡ refuse (not (valid_memory s m.entry && valid_memory s2 m2.entry)) 21 0 }
{
    device::test(
        state::valid_memory(s, m.rows, m.counts, m.position),
        Refusal::State,
    )?;
    device::test(
        state::valid_memory(s2, m2.rows, m2.counts, m2.position),
        Refusal::State,
    )
}

// The tests of `agree`.
#[tactic(auto, using(crate::proofs::Calls::Tests::agreement_tested, crate::proofs::Calls::Tests::tables_passed, device::proofs::Tests::or_later_first, device::proofs::Tests::number_not_0), unfolding(device::specs::Refusal::refuse, device::proofs::Tests::or_later, state::specs::State::given))]
fn test_agreement(
    s: Settings,
    remap: [u32; 16],
    m: Memory,
    s2: Settings,
    remap2: [u32; 16],
    m2: Memory,
) -> Result<(), Refusal>
    ensures { refusal_number result ≡ first_failed (agreement_tests s remap (memory m.entry) s2 remap2 (memory m2.entry)) }
{
    test_tables(s, m, s2, m2)?;
    device::test(device::remap_allowed(remap), Refusal::Remap)?;
    device::test(device::remap_allowed(remap2), Refusal::Remap)?;
    test_states(s, m, s2, m2)
}

// The tests of `estimates_agree`.
#[tactic(auto, using(crate::proofs::Calls::Tests::estimates_tested, crate::proofs::Calls::Tests::tables_passed, device::proofs::Tests::or_later_first, device::proofs::Tests::number_not_0), unfolding(device::specs::Refusal::refuse, device::proofs::Tests::or_later, state::specs::State::given))]
fn test_estimates(s: Settings, m: Memory, s2: Settings, m2: Memory) -> Result<(), Refusal>
    ensures { refusal_number result ≡ first_failed (estimates_tests s (memory m.entry) s2 (memory m2.entry)) }
{
    test_tables(s, m, s2, m2)?;
    test_states(s, m, s2, m2)
}

// Whether the tracked rows are the same, and their counts.
#[tactic(auto, using(crate::proofs::Alike::same_compared), unfolding(crate::specs::Calls::same_tracked, state::specs::State::given))]
fn same_tracked(m: Memory, m2: Memory) -> bool
    requires tracked_in_bounds { (m.position.tracked ≤ length m.rows.now) × (m.position.tracked ≤ length m.counts.now) }
    requires tracked_in_bounds_2 { (m2.position.tracked ≤ length m2.rows.now) × (m2.position.tracked ≤ length m2.counts.now) }
    ensures { result ≡ same_tracked (memory m.entry) (memory m2.entry) }
{
    let k = m.position.tracked as usize;
    let k2 = m2.position.tracked as usize;
    m.rows[..k] == m2.rows[..k2] && m.counts[..k] == m2.counts[..k2]
}

// Whether two trackers agree: the same settings, remap and position, and the same tracked rows with the same counts.
#[tactic(auto, using(crate::proofs::Calls::Outcomes::agreement_refused, crate::proofs::Calls::Outcomes::agreement_answered, crate::proofs::Calls::Tests::agreement_in_bounds, crate::proofs::Alike::same_compared), unfolding(device::specs::Refusal::outcome, crate::specs::Calls::same_settings, crate::specs::Calls::same_position, state::specs::State::given))]
pub fn agree(
    s: Settings,
    remap: [u32; 16],
    rows: &[u32],
    counts: &[u32],
    p: Position,
    s2: Settings,
    remap2: [u32; 16],
    rows2: &[u32],
    counts2: &[u32],
    p2: Position,
) -> Result<bool, Refusal>
    ensures { outcome result ≡ agreement_of s remap (lent rows.now counts.now p) s2 remap2 (lent rows2.now counts2.now p2) }
{
    let m = Memory {
        rows,
        counts,
        position: p,
    };
    let m2 = Memory {
        rows: rows2,
        counts: counts2,
        position: p2,
    };
    test_agreement(s, remap, m, s2, remap2, m2)?;
    Ok(s == s2 && remap == remap2 && p == p2 && same_tracked(m, m2))
}

// Whether two summaries give every row the same estimate, in banks of as many rows.
#[tactic(auto, using(crate::proofs::Calls::Outcomes::estimates_refused, crate::proofs::Calls::Outcomes::estimates_differ, crate::proofs::Calls::Outcomes::estimates_alike, crate::proofs::Calls::Tests::estimates_in_bounds, crate::proofs::Calls::Tests::estimates_tracks), unfolding(device::specs::Refusal::outcome, state::specs::State::summary_of, state::specs::State::given))]
pub fn estimates_agree(
    s: Settings,
    rows: &[u32],
    counts: &[u32],
    p: Position,
    s2: Settings,
    rows2: &[u32],
    counts2: &[u32],
    p2: Position,
) -> Result<bool, Refusal>
    ensures { outcome result ≡ estimates_of s (lent rows.now counts.now p) s2 (lent rows2.now counts2.now p2) }
{
    let m = Memory {
        rows,
        counts,
        position: p,
    };
    let m2 = Memory {
        rows: rows2,
        counts: counts2,
        position: p2,
    };
    test_estimates(s, m, s2, m2)?;
    if s.rows != s2.rows {
        return Ok(false);
    }
    Ok(estimates::same_estimates(m.tracked(), m2.tracked(), s.rows))
}
