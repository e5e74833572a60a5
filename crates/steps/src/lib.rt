// One line of a trace: what it does with the tracker that stands, and what it prints.
#![tactic(auto)]

mod line;
mod print;
mod record;

use dense::Tally;
use device::Settings;
pub use record::list_line;

// Where a listing is: whether a tracker stands, its settings and remap, its events and activations so far and what goes with its counts, the remap that is
// loaded for the next, and the lines so far, which count modulo 10,000,000,000.
#[derive(Clone, Copy)]
pub struct Place {
    pub active: bool,
    pub settings: Settings,
    pub remap: [u32; 16],
    pub events: u32,
    pub activations: u32,
    pub tally: Tally,
    pub loaded: [u32; 16],
    pub lines: u64,
}

// Where the listing is behind a line, and the place behind what was printed.
#[derive(Clone, Copy)]
pub struct Listed {
    pub place: Place,
    pub end: usize,
}
