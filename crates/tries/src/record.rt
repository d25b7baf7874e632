// The two kinds of record of a table, alike but for their names and numbers.
ghost use Rattle.std.specs.Prelude.{◌≡◌, ℕ, List, slice_index};
ghost use Rattle.std.proofs.Math.ListN.{set};
ghost use Rattle.definition.specs.declared.Table.{Table};

use crate::sums;
use definition::{Endpoint, Slot, Table};

pub trait Record: Copy {
    const NAME: &'static str;

    // What is known of the numbers of a record: all but those of its state and its cycle bit.
    ghost shown: { Self → List ℕ → Type 0 };

    // The table with a record at an index, or as it was where it has no such index.
    ghost placed: { Self → Table → ℕ → Table };

    // Its fields, in order.
    fn numbers(self) -> [u64; 3]
        ensures { shown self result };

    fn put(self, t: Table, at: usize) -> Table
        ensures { result ≡ placed self t at };
}

impl Record for Slot {
    const NAME: &'static str = "slot";

    ghost shown = { λ s ns. (slice_index ns 1 ≡ s.base) × (slice_index ns 2 ≡ s.entry) };

    ghost placed = { λ s t at. record { limit = t.limit; length = t.length; dcbaap = t.dcbaap; slots = set t.slots at s; endpoints = t.endpoints } };

    fn numbers(self) -> [u64; 3] {
        [u64::from(self.state.number()), self.base, self.entry]
    }

    fn put(self, mut t: Table, at: usize) -> Table {
        if at < t.slots.len() {
            t.slots[at] = self;
        }
        t
    }
}

impl Record for Endpoint {
    const NAME: &'static str = "endpoint";

    ghost shown = { λ e ns. slice_index ns 2 ≡ e.pointer };

    ghost placed = { λ e t at. record { limit = t.limit; length = t.length; dcbaap = t.dcbaap; slots = t.slots; endpoints = set t.endpoints at e } };

    fn numbers(self) -> [u64; 3] {
        [
            u64::from(self.state.number()),
            u64::from(self.cycle),
            self.pointer,
        ]
    }

    fn put(self, mut t: Table, at: usize) -> Table {
        if at < t.endpoints.len() {
            t.endpoints[at] = self;
        }
        t
    }
}
