// The table and the memory that the calls are tried on.
ghost use Rattle.std.specs.Prelude.{◌≤◌, length};

use crate::record::Record;
use definition::{Endpoint, EndpointState, Slot, SlotState, Table};
use guest::words;

// What the guest's memory holds: the base in slot 2's DCBAA entry, the flags in the input contexts, and a type byte.
#[derive(Clone, Copy)]
pub struct Guest {
    pub base: u64,
    pub flags: u64,
    pub kind: u64,
}

impl Guest {
    // No flags are set, and slot 2's device context is to be at 1536.
    pub const PLAIN: Guest = Guest {
        base: 1536,
        flags: 0,
        kind: 0,
    };
}

// A table, the guest, and how many bytes of its memory are lent, at most 4097.
#[derive(Clone, Copy)]
pub struct Setting {
    pub table: Table,
    pub guest: Guest,
    pub lent: usize,
}

impl Default for Setting {
    // The well formed table and its own memory.
    fn default() -> Self {
        Setting {
            table: table(),
            guest: Guest::PLAIN,
            lent: 4096,
        }
    }
}

// Slot 1 is Configured, 2 Enabled, 3 Default, and 16, above the limit, is Addressed: its contexts end where memory does.
fn slots(mut t: Table) -> Table {
    for (at, state, base, entry) in [
        (0, SlotState::Configured, 1024, 264),
        (1, SlotState::Enabled, 0, 272),
        (2, SlotState::Default, 2560, 280),
        (15, SlotState::Addressed, 4032, 384),
    ] {
        t = Slot { state, base, entry }.put(t, at);
    }
    t
}

// Endpoints 1 to 6 of slot 1 are in the six resting states, and endpoint 31 waits. Endpoint 1 of slots 3 and 16 waits.
fn endpoints(mut t: Table) -> Table {
    for (at, state, cycle, pointer) in [
        (0, EndpointState::Waiting, true, 3072),
        (1, EndpointState::InFlight, false, 3088),
        (2, EndpointState::Halted, true, 3104),
        (3, EndpointState::Error, false, 3120),
        (4, EndpointState::StoppedContinuable, true, 3136),
        (5, EndpointState::Stopped, false, 3152),
        (30, EndpointState::Waiting, true, 3168),
        (62, EndpointState::Waiting, false, 3184),
        (465, EndpointState::Waiting, true, 3200),
    ] {
        t = Endpoint {
            state,
            cycle,
            pointer,
        }
        .put(t, at);
    }
    t
}

// Well formed, for 4096 bytes.
pub fn table() -> Table {
    endpoints(slots(Table {
        limit: 4,
        length: 4096,
        dcbaap: 256,
        slots: [Slot::FREE; 16],
        endpoints: [Endpoint::DISABLED; 496],
    }))
}

// Slot 2's DCBAA entry is at 272. Input contexts are at 2048, where endpoint 1 has a type and a dequeue word, and at 4032.
pub fn fill(mem: &mut [u8], g: Guest)
    requires { 4097 ≤ length mem.old }
{
    for (at, n) in [
        (272, g.base),
        (2048, g.flags),
        (4032, g.flags),
        (2112, g.kind),
        (2120, 3073),
        (1024, 0x0005_0000_0000_0000),
    ] {
        words::store_u64(mem, at, n);
    }
}

// A memory of its own, filled.
pub(crate) fn memory(g: Guest) -> [u8; 4097] {
    let mut mem = [0; 4097];
    fill(&mut mem, g);
    mem
}
