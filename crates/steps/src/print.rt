// The printed lines of accepted settings and of an event, at a place of a lent buffer; each answers the place behind what it printed.
ghost use Rattle.std.specs.Prelude.{◌+◌, ◌*◌, ◌≤◌, ◌<◌, length, take};
ghost use Rattle.columns.specs.Output.{PrintsInto};
ghost use Rattle.steps.specs.Output.{bound_line, refresh_line};

// The line of accepted settings, with their bound.
pub fn print_bound(out: &mut [u8], at: usize, h: u64) -> usize
    requires { (at + 22 ≤ length out.old) × (h < 9223372036854775808) }
    ensures { PrintsInto out at (bound_line h) result }
{
    let numbers = columns::print_byte(out, at, b'B');
    let twice = columns::print_columns(out, numbers, 10, h);
    let end = columns::print_columns(out, twice, 10, 2 * h);
    columns::print_byte(out, end, b'\n')
}

// The line of a refresh event: the events before it in its window, and the first rows of a list as those picked.
pub fn print_refresh(out: &mut [u8], at: usize, e: u32, picks: &[u32], count: usize) -> usize
    requires { (count ≤ length picks.now) × (at + 6 * count + 14 ≤ length out.old) }
    ensures { PrintsInto out at (refresh_line e (take count picks.now)) result }
{
    let events = columns::print_byte(out, at, b'R');
    let number = columns::print_columns(out, events, 6, e as u64);
    let rows = columns::print_columns(out, number, 6, count as u64);
    let end = columns::print_numbers(out, rows, picks, count);
    columns::print_byte(out, end, b'\n')
}
