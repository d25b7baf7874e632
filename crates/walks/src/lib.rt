// Walks over a slot's endpoints: many terminated, many copied and launched, with the masks, the root port and the count
// of bytes stored that a command answers with. Nothing is refused here: the caller knows that each context lies in memory.
// A walk is lent the 31 records of its slot, a slice of the table's run. No loop passes the table itself.
#![tactic(auto)]

ghost use Rattle.std.specs.Prelude.{◌≡◌, false, ◌+◌, ◌-◌, ◌*◌, ◌^◌, ◌≤◌, ◌<◌, length};
ghost use Rattle.guest.specs.Bytes.{◌⊕◌, count, set_bits};
ghost use Rattle.definition.specs.Table.{is_disabled};
ghost use Rattle.endpoint.specs.Promises.{Terminates};
ghost use Rattle.walks.specs.Promises.{Rooms, RoomsIn, EndsFlagged, TerminatesAll, Space, CopyLaunches, Spaces, AddsAll, AllRooms, FreesAll};

use definition::{Endpoint, Slot, Table};
use endpoint::Terminated;
use std::ops::Range;

// Ended, Added and Freed stay three types, and Marks a fourth: one for all would have fields that mean nothing: in an Ended the launched mask and
// the root port, in an Added the terminated mask, in a Freed all three, and in Marks the table, which no loop is to pass.

// What terminations leave: the table, the mask of those that were enabled, the count of bytes stored.
#[derive(Clone, Copy)]
pub struct Ended {
    pub table: Table,
    pub terminated: u64,
    pub stored: u64,
}

// What terminations leave beside the records: the mask of those that were enabled, the count of bytes stored.
#[derive(Clone, Copy)]
struct Marks {
    mask: u64,
    stored: u64,
}

// What a launch leaves: the endpoint's record, and the root port.
#[derive(Clone, Copy)]
pub struct Launched {
    pub endpoint: Endpoint,
    pub port: u64,
}

// What adds leave: the table, the mask of those launched, the root port, the count of bytes stored.
#[derive(Clone, Copy)]
pub struct Added {
    pub table: Table,
    pub launched: u64,
    pub port: u64,
    pub stored: u64,
}

// What is left when every slot is freed: the table, the count of bytes stored.
#[derive(Clone, Copy)]
pub struct Freed {
    pub table: Table,
    pub stored: u64,
}

// ---- one endpoint

// The index of block i of the contexts at `base`: in a device context that is endpoint i's.
fn context_at(base: u64, i: u64) -> usize
    requires { i ≤ 32 }
    ensures { result ≡ base ⊕ 32 * i }
{
    guest::address::index(guest::address::plus(base, 32 * i))
}

// A mask of endpoints below i, with bit i besides.
fn marked(mask: u64, i: u64) -> u64
    requires { (i ≤ 31) × (mask < 2 ^ i) }
    ensures { result ≡ mask + 2 ^ i }
{
    mask + (1 << i)
}

// Endpoint i, whose record is e, is terminated. A disabled one is passed over.
pub fn end_one(e: Endpoint, mem: &mut [u8], base: u64, i: u64) -> Terminated
    requires i_bound { i ≤ 31 }
    requires i_in_bounds { is_disabled e ≡ false → (base ⊕ 32 * i) + 32 ≤ length mem.old }
    ensures { Terminates e (base ⊕ 32 * i) mem.old result mem.new }
{
    let at = context_at(base, i);
    endpoint::terminate(e, mem, at)
}

// The endpoint context at `from` is copied to endpoint i, and the endpoint is launched: 33 bytes stored.
// The context is read whole before it is stored, and the root port is read after that.
pub fn copy_launch(mem: &mut [u8], base: u64, from: usize, i: u64) -> Launched
    requires i_bound { i ≤ 31 }
    requires space { Space base from i (length mem.old) }
    ensures { CopyLaunches base from i mem.old result mem.new }
{
    let at = context_at(base, i);
    let context = guest::context::read_context(mem, from);
    guest::context::store_context(mem, at, context);
    let port = guest::words::read_byte(mem, guest::address::index(base) + 6);
    let endpoint = endpoint::launch(mem, at);
    Launched {
        endpoint,
        port: u64::from(port),
    }
}

// ---- the endpoints of a slot

// The numbers of slots and endpoints stay u64, bounded in the contracts: they are the calls' own numbers, and a type for
// them would be made and opened again at each use.

// All thirty-two flags.
const EVERY: u32 = u32::MAX;

// Where the records of slot id stand in the table's flat run: those of endpoints 1 to 31.
fn records_of(id: u64) -> Range<usize>
    requires { (1 ≤ id) × (id ≤ 16) }
    ensures start { result.start ≡ (id - 1) * 31 }
    ensures end { result.end ≡ (id - 1) * 31 + 31 }
{
    let first = (id - 1) as usize * 31;
    first..first + 31
}

// Of a slot's records those from endpoint lo on whose flag is set are terminated, ascending. A disabled one's record is
// not stored back.
fn end_flagged(records: &mut [Endpoint], mem: &mut [u8], base: u64, lo: u64, flags: u32) -> Marks
    requires lo_bounds { (1 ≤ lo) × (lo ≤ 32) }
    requires records_length { length records.old ≡ 31 }
    requires rooms { RoomsIn records.old base lo (length mem.old) }
    ensures { EndsFlagged base lo flags records.old mem.old result records.new mem.new }
{
    let mut mask: u64 = 0;
    let mut stored: u64 = 0;
    for i in lo..32 {
        let k = (i - 1) as usize;
        let e = records[k];
        if guest::bits::flag(flags, i as u32) && !e.is_disabled() {
            let r = end_one(e, mem, base, i);
            records[k] = r.endpoint;
            mask = marked(mask, i);
            stored += r.stored;
        }
    }
    Marks { mask, stored }
}

// The endpoints of slot id from lo on are terminated, ascending.
pub fn terminate_from(mut t: Table, mem: &mut [u8], id: u64, base: u64, lo: u64) -> Ended
    requires le_id { (1 ≤ id) × (id ≤ 16) × (1 ≤ lo) × (lo ≤ 32) }
    requires rooms { Rooms t id base lo (length mem.old) }
    ensures { TerminatesAll id base (count (32 - lo) lo) (32 - lo) t mem.old result mem.new }
{
    let gone = end_flagged(&mut t.endpoints[records_of(id)], mem, base, lo, EVERY);
    Ended {
        table: t,
        terminated: gone.mask,
        stored: gone.stored,
    }
}

// The endpoints of slot id past the first whose drop flag is set are terminated, ascending.
pub fn terminate_flagged(mut t: Table, mem: &mut [u8], id: u64, base: u64, drops: u32) -> Ended
    requires le_id { (1 ≤ id) × (id ≤ 16) }
    requires rooms { Rooms t id base 2 (length mem.old) }
    ensures { TerminatesAll id base (set_bits 30 2 drops) 30 t mem.old result mem.new }
{
    let gone = end_flagged(&mut t.endpoints[records_of(id)], mem, base, 2, drops);
    Ended {
        table: t,
        terminated: gone.mask,
        stored: gone.stored,
    }
}

// The endpoints of slot id past the first whose add flag is set are copied from the input context at `pointer` and
// launched, ascending. One that is enabled is replaced.
pub fn add_flagged(
    mut t: Table,
    mem: &mut [u8],
    id: u64,
    pointer: u64,
    base: u64,
    adds: u32,
) -> Added
    requires le_id { (1 ≤ id) × (id ≤ 16) }
    requires spaces { Spaces pointer base adds (length mem.old) }
    ensures { AddsAll id pointer base (set_bits 30 2 adds) t mem.old result mem.new }
{
    let mut launched: u64 = 0;
    let mut port: u64 = 0;
    let mut stored: u64 = 0;
    let records = &mut t.endpoints[records_of(id)];
    for i in 2..32 {
        if guest::bits::flag(adds, i as u32) {
            let from = context_at(pointer, i + 1);
            let r = copy_launch(mem, base, from, i);
            records[(i - 1) as usize] = r.endpoint;
            launched = marked(launched, i);
            port = r.port;
            stored += 33;
        }
    }
    Added {
        table: t,
        launched,
        port,
        stored,
    }
}

// ---- all slots

// Every slot's endpoints are terminated and the slot is freed, ascending. The registers are left as they are.
// A disabled endpoint's record is not stored back.
pub fn free_all(mut t: Table, mem: &mut [u8]) -> Freed
    requires { AllRooms t (length mem.old) }
    ensures { FreesAll t mem.old result mem.new }
{
    let mut stored: u64 = 0;
    for id in 1..=16 {
        let slot = t.slots[(id - 1) as usize];
        let gone = end_flagged(&mut t.endpoints[records_of(id)], mem, slot.base, 1, EVERY);
        stored += gone.stored;
        t.slots[(id - 1) as usize] = Slot::FREE;
    }
    Freed { table: t, stored }
}
