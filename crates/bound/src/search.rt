// The least counter count, in one walk from the total's last step up. To end below a number, a total has to be below another one,
// the room, before its last m steps. With C from m × V to (m + 1) × V all earlier steps only add, but for the step down to D(m): so
// the first m at which such a step ends below the room has the least count, and one division gives it.
ghost use Rattle.std.specs.Prelude.{◌≡◌, ◌+◌, ◌-◌, ◌*◌, ◌/◌, ◌^◌, ◌≤◌, ◌<◌, max, leb};
ghost use Rattle.device.specs.Acceptance.{most_counters};
ghost use Rattle.device.specs.Refusal.{refused, outcome};
ghost use Rattle.bound.specs.Least.{or_else, first_from};
ghost use Rattle.bound.specs.InnerContracts.{ends_below};

use device::Refusal;

// What a total has to be below so that twice the total with T' is below the threshold.
pub fn room_below(threshold: u64, disturbers: u64) -> u64
    ensures { result ≡ (threshold + 1) / 2 - disturbers }
{
    threshold.div_ceil(2).saturating_sub(disturbers)
}

// A product over a size, rounded up, and what the rounding added: quotient × size is the product and `over`.
#[derive(Clone, Copy)]
struct Share {
    quotient: u64,
    over: u64,
}

// The share at another size of the product that is quotient × size less both `over` and `less`. Only `less` is divided, so that no
// step's division waits for the one before.
fn share_less(share: Share, less: u64, at: u64) -> Share
    requires { (0 < at) × (at < 2 ^ 32) × (share.over < at) × (less + share.over ≤ share.quotient * at) }
    ensures { (result.quotient * at + (less + share.over) ≡ share.quotient * at + result.over) × (result.over < at) }
{
    let quotient = share.quotient - less / at;
    let over = share.over + less % at;
    if over < at {
        Share { quotient, over }
    } else {
        Share {
            quotient: quotient - 1,
            over: over - at,
        }
    }
}

// The smallest count from the volume on for which sum × at is below room × (count + 1); 12 if that is none up to 2,048.
#[tactic(auto, unfolding(device::specs::Refusal::outcome, crate::specs::Least::or_else))]
fn count_for(volume: u64, room: u64, sum: u64, at: u64) -> Result<u64, Refusal>
    requires { (0 < room) × (sum < 2 ^ 29) × (at ≤ most_counters) }
    ensures { outcome result ≡ or_else (leb (max volume (sum * at / room)) most_counters) (max volume (sum * at / room)) (refused 12) }
{
    let count = (sum * at / room).max(volume);
    if count <= device::MOST_COUNTERS as u64 {
        Ok(count)
    } else {
        Err(Refusal::NoCount)
    }
}

// The smallest count from the volume on whose total is below the end. Before the last m steps `sum` is what all steps up to there
// add, `room` what a total has to be below, `at` the size D(m), and `share` that of room × V; no count up to m × V will do. One step
// undone, the room is room × (at + V) / at, rounded up, and what the step added is taken from it.
pub fn least_below(volume: u64, added: u64, steps: u64, end: u64) -> Result<u64, Refusal>
    requires { (0 < volume) × (volume ≤ 16) × (added ≤ 16704) × (steps ≤ 16383) }
    ensures { outcome result ≡ first_from (ends_below volume added steps end) (most_counters + 1 - volume) volume }
{
    let mut sum = steps * added;
    if sum < end {
        return Ok(volume);
    }
    let less = added * volume;
    let mut room = end;
    let mut at: u64 = 1;
    let mut share = Share {
        quotient: end * volume,
        over: 0,
    };
    // A `for` over the sizes would be no plainer: a turn needs the next size too.
    while at <= device::MOST_COUNTERS as u64 {
        let before = room + share.quotient;
        if sum < before {
            return count_for(volume, room, sum, at);
        }
        if before <= added {
            return Err(Refusal::NoCount);
        }
        room = before - added;
        sum -= added;
        at += volume;
        share = share_less(share, less, at);
    }
    Err(Refusal::NoCount)
}
