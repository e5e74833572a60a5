// What the calls refuse: a refusal, its number in the paper, and a test that decides.
ghost use Rattle.std.specs.Prelude.{◌≡◌, not};
ghost use Rattle.device.specs.Refusal.{number, refuse, refusal_number};

// A refusal, in the order of the paper's numbers.
#[derive(Clone, Copy, PartialEq, Eq)]
pub enum Refusal {
    Rows,
    BlastDiameter,
    Volume,
    Counters,
    Interval,
    Window,
    Block,
    Tables,
    Row,
    Picks,
    Line,
    NoCount,
    Room,
    Remap,
    Hold,
    State,
    IntervalFull,
}

impl Refusal {
    // The paper's number.
    pub fn number(self) -> u32
        ensures { result ≡ number self }
    {
        match self {
            Refusal::Rows => 1,
            Refusal::BlastDiameter => 2,
            Refusal::Volume => 3,
            Refusal::Counters => 4,
            Refusal::Interval => 5,
            Refusal::Window => 6,
            Refusal::Block => 7,
            Refusal::Tables => 8,
            Refusal::Row => 9,
            Refusal::Picks => 10,
            Refusal::Line => 11,
            Refusal::NoCount => 12,
            Refusal::Room => 13,
            Refusal::Remap => 14,
            Refusal::Hold => 15,
            Refusal::State => 21,
            Refusal::IntervalFull => 22,
        }
    }
}

// A test of a call: it is refused unless something is so.
#[tactic(auto, unfolding(crate::specs::Refusal::refuse))]
pub fn test(allowed: bool, refusal: Refusal) -> Result<(), Refusal>
    ensures { refusal_number result ≡ refuse (not allowed) (number refusal) 0 }
{
    if allowed { Ok(()) } else { Err(refusal) }
}
