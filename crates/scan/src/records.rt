// One slot's record or one endpoint's: whether it is in order.
ghost use Rattle.std.specs.Prelude.{◌≡◌, not, ◌≤◌};
ghost use Rattle.definition.specs.Table.{is_zero, endpoint_ok};
ghost use Rattle.scan.specs.Records.{has_contexts, own_ok, in_use, clear};

use definition::{Endpoint, Slot, SlotState};
use guest::address::inside;

// What is wrong with an endpoint's record: all are 0 or false where nothing is.
#[derive(Clone, Copy)]
pub struct Faults {
    pub flags: u8,
    pub cycle: bool,
    pub pointer: u64,
}

impl Faults {
    // Something is wrong.
    pub fn any(self) -> bool
        ensures { result ≡ not (clear self.flags self.cycle self.pointer) }
    {
        u64::from(self.flags) | u64::from(self.cycle) | self.pointer != 0
    }
}

// A slot in this state is past Enabled, and so has contexts.
pub fn has_contexts(state: SlotState) -> bool
    ensures { result ≡ has_contexts state }
{
    1 < state.number()
}

// A slot past Enabled has endpoint 1, and the 64 bytes from its base lie in memory.
fn in_use(slot: Slot, first: Endpoint, length: u64) -> bool
    ensures { result ≡ in_use slot first length }
{
    !first.is_disabled() && inside(length, slot.base, 64)
}

// The slot's own record is in order, with endpoint 1 beside it.
pub fn slot_ok(slot: Slot, first: Endpoint, length: u64) -> bool
    ensures { result ≡ own_ok slot first length }
{
    match slot.state {
        SlotState::Free => slot.base == 0 && slot.entry == 0,
        SlotState::Enabled => slot.base == 0,
        SlotState::Default | SlotState::Addressed | SlotState::Configured => {
            in_use(slot, first, length)
        }
    }
}

// A record that has to be all zero: whatever is not is a fault.
pub fn nonzero(e: Endpoint) -> Faults
    ensures { clear result.flags result.cycle result.pointer ≡ is_zero e }
{
    Faults {
        flags: e.state.number(),
        cycle: e.cycle,
        pointer: e.pointer,
    }
}

// The record of endpoint i, in a slot whose contexts begin at `base`.
pub fn faults_of(length: u64, base: u64, i: u64, e: Endpoint) -> Faults
    requires { i ≤ 31 }
    ensures { clear result.flags result.cycle result.pointer ≡ endpoint_ok length base i e }
{
    if e.is_disabled() {
        return nonzero(e);
    }
    if inside(length, guest::address::plus(base, 32 * i), 32) {
        return Faults {
            flags: 0,
            cycle: false,
            pointer: e.pointer % 16,
        };
    }
    Faults {
        flags: 1,
        cycle: false,
        pointer: 0,
    }
}
