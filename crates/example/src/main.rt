// A program over the tracker: it is set up, rows are activated, a refresh event names the row to refresh, and a row's figure is asked for.
#![tactic(auto)]

use device::{Refusal, Settings};
use tracker::Position;

// The number of standard output.
const STDOUT_FILENO: i32 = 1;

// Prints a word and a number on a line.
fn print(word: &[u8], number: u32) {
    io::write_all(STDOUT_FILENO, word);
    io::print_decimal(STDOUT_FILENO, number as u64);
    io::write_all(STDOUT_FILENO, b"\n");
}

// Prints a refusal's number.
fn print_refusal(refusal: Refusal) {
    print(b"refused ", refusal.number());
}

// Activates a row for so many units. The answer holds the position for the next call, also when it refuses.
fn activate(
    s: Settings,
    remap: [u32; 16],
    rows: &mut [u32],
    counts: &mut [u32],
    p: Position,
    row: u32,
    hold: u32,
) -> Position {
    match tracker::activate(s, remap, rows, counts, p, row, hold) {
        Ok(next) => next,
        Err(refused) => {
            print_refusal(refused.refusal);
            refused.position
        }
    }
}

// Prints the most that a logical row's disturbance can be where the tracker stands.
fn print_limit(s: Settings, remap: [u32; 16], row: u32, p: Position) {
    match rowlimit::row_limit(s, remap, row, p) {
        Ok(figure) => {
            io::write_all(STDOUT_FILENO, b"at most ");
            io::print_decimal(STDOUT_FILENO, figure);
            io::write_all(STDOUT_FILENO, b"\n");
        }
        Err(refusal) => print_refusal(refusal),
    }
}

// Sets up on lent tables with our own remap, activates logical row 5 for two units and row 2 for one, then runs a refresh event with a lent list and
// asks for the figure of row 11.
fn main() {
    let s = Settings {
        rows: 16,
        blast_diameter: 2,
        volume: 1,
        counters: 2,
        interval: 4,
        window: 4,
        block: 4,
    };
    let remap = device::own_remap();
    let mut rows = [0u32; 2];
    let mut counts = [0u32; 2];
    let mut list = [0u32; 1];
    let Ok(p) = tracker::set_up(s, remap, &mut rows, &mut counts) else {
        return;
    };
    let p = activate(s, remap, &mut rows, &mut counts, p, 5, 2);
    let p = activate(s, remap, &mut rows, &mut counts, p, 2, 1);
    match tracker::refresh(s, &mut rows, &mut counts, p, &mut list) {
        Ok(refreshed) => {
            if refreshed.count == 1 {
                print(b"picked ", list[0]);
            }
            print_limit(s, remap, 11, refreshed.position);
        }
        Err(refused) => print_refusal(refused.refusal),
    }
}
