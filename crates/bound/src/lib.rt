// The bound on disturbance and the least counter count.
#![tactic(auto)]

mod search;
mod total;

ghost use Rattle.std.specs.Prelude.{◌≡◌, ◌*◌, ◌≤◌, ◌<◌, ◌^◌, pos, neg_ℤ, IfOk, IfErr};
ghost use Rattle.device.specs.Refusal.{first_failed, outcome};
ghost use Rattle.device.specs.Acceptance.{settings_tests, settings_tests_but_counters};
ghost use Rattle.bound.specs.Totals.{disturbers, bound_at};
ghost use Rattle.bound.specs.Least.{least_of};
ghost use Rattle.bound.specs.Answers.{bound_answer, least_answer, signed, Small};

use device::{Refusal, Settings};
use total::Sizes;

// T': the rows that disturb their victims from one event to the next.
#[tactic(auto, unfolding(crate::specs::Totals::disturbers))]
pub fn disturbers_of(s: Settings) -> u64
    ensures { result ≡ disturbers s }
{
    s.interval as u64 + s.volume as u64 + s.block as u64
}

// B × T': what each step of the total adds.
fn added_of(s: Settings) -> u64
    requires { first_failed (settings_tests_but_counters s) ≡ 0 }
    ensures { result ≡ s.blast_diameter * disturbers s }
{
    s.blast_diameter as u64 * disturbers_of(s)
}

// H with so many events in a window.
pub fn bound_at(s: Settings, events: u32) -> u64
    requires s_value { first_failed (settings_tests s) ≡ 0 }
    requires events_nonzero { (0 < events) × (events ≤ 16384) }
    ensures { result ≡ bound_at s events }
{
    let sizes = Sizes {
        volume: s.volume as u64,
        counters: s.counters as u64,
    };
    let total = sizes.total(added_of(s), events as u64 - 1);
    total + disturbers_of(s)
}

// The bound H on any row's disturbance, of which each of two windows adds at most one.
#[tactic(auto, using(device::proofs::Tests::outcome_refused, device::proofs::Tests::outcome_accepted), unfolding(device::specs::Refusal::outcome, crate::specs::Answers::bound_answer_to, crate::specs::Totals::bound_of))]
pub fn bound(s: Settings) -> Result<u64, Refusal>
    ensures { outcome result ≡ bound_answer s }
{
    device::test_settings(s)?;
    Ok(bound_at(s, s.window))
}

// The least counter count of accepted settings.
fn least_of(s: Settings, threshold: u64) -> Result<u64, Refusal>
    requires { first_failed (settings_tests_but_counters s) ≡ 0 }
    ensures { outcome result ≡ least_of s threshold }
{
    let added = added_of(s);
    let room = search::room_below(threshold, disturbers_of(s));
    search::least_below(s.volume as u64, added, s.window as u64 - 1, room)
}

// The smallest counter count whose bound, twice, is below the threshold; `counters` is not looked at.
#[tactic(auto, using(device::proofs::Tests::outcome_refused, device::proofs::Tests::outcome_accepted), unfolding(device::specs::Refusal::outcome, crate::specs::Answers::least_answer_to))]
pub fn least_counters(s: Settings, threshold: u64) -> Result<u64, Refusal>
    ensures { outcome result ≡ least_answer s threshold }
{
    device::test_settings_but_counters(s)?;
    least_of(s, threshold)
}

// One signed number: a value as it is, and refusal k, whatever number it is, as -k.
pub fn signed_answer(answer: Result<u64, u32>) -> i64
    requires { IfOk answer (λ v. v < 2 ^ 63) }
    ensures value { IfOk answer (λ v. result ≡ pos v) }
    ensures refusal { IfErr answer (λ k. result ≡ neg_ℤ (pos k)) }
{
    match answer {
        Ok(v) => v as i64,
        Err(k) => -(k as i64),
    }
}

// The signed number that C gets.
#[tactic(auto, unfolding(device::specs::Refusal::outcome, crate::specs::Answers::signed, crate::specs::Answers::Small))]
pub fn signed_number(answer: Result<u64, Refusal>) -> i64
    requires { Small (outcome answer) }
    ensures { result ≡ signed (outcome answer) }
{
    match answer {
        Ok(v) => signed_answer(Ok(v)),
        Err(refusal) => signed_answer(Err(refusal.number())),
    }
}
