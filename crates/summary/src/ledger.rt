// What keeps a summary of disturbed rows, in whatever memory: drop, disturb, take out the highest, clear.
ghost use Rattle.std.specs.Prelude.{◌∷◌, [], ◌++◌, ◌+◌, ◌-◌, ◌≡◌, ◌≤◌, ◌<◌, ℕ, length};
ghost use Rattle.device.specs.Victims.{rows_between};
ghost use Rattle.summary.specs.Entries.{picks};
ghost use Rattle.summary.specs.Steps.{Summary, empty, disturb, disturb_each, drop_rows};
ghost use Rattle.summary.specs.Rules.{Ordered, RoomFor};
ghost use Rattle.summary.specs.InnerContracts.{Names, picked_out};
ghost use Rattle.summary.specs.Ledger.{Turned, named};

pub trait Ledger {
    // a value as the methods want it
    ghost kept: { Self → Type 0 };

    // the summary that it holds
    ghost summary: { Self → Summary };

    // the number of its places
    ghost places: { Self → ℕ };

    // its bank's rows are below this
    ghost bound: { Self → ℕ };

    // the second value is in the memory of the first
    ghost same: { Self → Self → Type 0 };

    // A row is dropped if it is tracked.
    fn drop_row(&mut self, row: u32)
        requires { kept self.old × (row < bound self.old) }
        ensures { Turned kept summary places bound same (drop_rows (row ∷ [])) self.old self.new };

    // 'Disturbing one row'.
    fn disturb_row(&mut self, row: u32)
        requires kept { kept self.old }
        requires room_for { (row < bound self.old) × RoomFor 1 (summary self.old) }
        ensures { Turned kept summary places bound same (disturb (places self.old) row) self.old self.new };

    // The first row of the highest count is taken out, if any row is tracked.
    fn take_top(&mut self) -> Option<u32>
        requires { kept self.old }
        ensures row { named result ≡ picks 1 (summary self.old).entries }
        ensures turned { Turned kept summary places bound same (picked_out 1) self.old self.new };

    // Every row is dropped, and the spillover is 0.
    fn clear(&mut self)
        requires { kept self.old }
        ensures { Turned kept summary places bound same (λ sum. empty) self.old self.new };

    // The rows from one on and below another are dropped.
    fn drop_run(&mut self, low: u32, high: u32)
        requires { kept self.old × (high ≤ bound self.old) }
        ensures { Turned kept summary places bound same (drop_rows (rows_between low high)) self.old self.new }
    {
        for row in low..high {
            self.drop_row(row);
        }
    }

    // The rows from one on and below another are disturbed, ascending, but for one in the middle.
    fn disturb_around(&mut self, low: u32, middle: u32, high: u32)
        requires kept { kept self.old }
        requires around { (low ≤ middle) × (middle < high) × (high ≤ bound self.old) × (high - low ≤ 64) }
        requires room_for { RoomFor 64 (summary self.old) }
        ensures { Turned kept summary places bound same (disturb_each (places self.old) (rows_between low middle ++ rows_between (middle + 1) high)) self.old self.new }
    {
        for row in low..middle {
            self.disturb_row(row);
        }
        for row in middle + 1..high {
            self.disturb_row(row);
        }
    }

    // The rows of highest count are taken out and named at the front of a list, at most so many; how many they are.
    fn pick(&mut self, volume: usize, list: &mut [u32]) -> usize
        requires kept { kept self.old }
        requires volume_in_bounds { volume ≤ length list.old }
        ensures names { Names list volume (summary self.old) result }
        ensures turned { Turned kept summary places bound same (picked_out volume) self.old self.new }
    {
        for i in 0..volume {
            let Some(row) = self.take_top() else {
                return i;
            };
            list[i] = row;
        }
        volume
    }

    ghost same_reflexive: { (a : Self) → same a a };

    ghost same_transitive: { (a b c : Self) → same a b → same b c → same a c };

    ghost ordered: { (a : Self) → kept a → Ordered (bound a) 0 (summary a).entries };
}
