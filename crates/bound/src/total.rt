// The total of the bound. Where a step's two sizes are both C + 1 it only adds, so all such steps, which come first, are one product.
ghost use Rattle.std.specs.Prelude.{◌≡◌, ◌+◌, ◌-◌, ◌*◌, ◌/◌, ◌^◌, ◌≤◌, ◌<◌, min};
ghost use Rattle.std.specs.Int.{div_ceil};
ghost use Rattle.device.specs.Acceptance.{most_counters};
ghost use Rattle.bound.specs.Totals.{size, total};

// What the sizes of a total's steps are made of: V and C.
#[derive(Clone, Copy)]
pub struct Sizes {
    pub volume: u64,
    pub counters: u64,
    ghost volume_positive: { 0 < volume },
    ghost volume_few: { volume ≤ 16 },
    ghost counters_few: { counters ≤ most_counters },
}

// One step of the total: a number is added, and the total replaced by total × below / at, rounded down.
fn step(t: u64, added: u64, below: u64, at: u64) -> u64
    requires { (t + added < 2 ^ 64) × ((t + added) * below < 2 ^ 64) × (0 < at) }
    ensures { result ≡ (t + added) * below / at }
{
    (t + added) * below / at
}

impl Sizes {
    // The size D(j).
    #[tactic(auto, unfolding(crate::specs::Totals::size))]
    fn at(self, j: u64) -> u64
        requires { j ≤ 16384 }
        ensures { result ≡ size self.volume self.counters j }
    {
        (j * self.volume + 1).min(self.counters + 1)
    }

    // How many of so many steps, the last ones, go from one size to a smaller one: C / V, rounded up.
    fn rising(self, steps: u64) -> u64
        ensures { result ≡ min steps (div_ceil self.counters self.volume) }
    {
        steps.min(self.counters.div_ceil(self.volume))
    }

    // The total of so many steps, from 0.
    pub fn total(self, added: u64, steps: u64) -> u64
        requires { (added ≤ 16704) × (steps ≤ 16383) }
        ensures { result ≡ total (size self.volume self.counters) added steps 0 }
    {
        let rising = self.rising(steps);
        let mut t = (steps - rising) * added;
        let mut at = self.at(rising);
        for j in (0..rising).rev() {
            let below = j * self.volume + 1;
            t = step(t, added, below, at);
            at = below;
        }
        t
    }
}
