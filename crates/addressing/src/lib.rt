// Address Device (xHCI 4.6.5). Only endpoint 1 and the slot's own record change, so that all but the last two functions do without the table.
// `address_device` asks `Opened t mem id slot` in a clause, `applied` an id of 1 to 16; both take table, id and slot apart: docs/CLAIMS.md names them so.
#![tactic(auto)]

ghost use Rattle.std.specs.Prelude.{◌≡◌, false, ◌+◌, ◌≤◌, ◌<◌, length};
ghost use Rattle.addressing.specs.Types.{Default, Addressed};
ghost use Rattle.definition.specs.Table.{is_disabled};
ghost use Rattle.definition.specs.Commands as commands;
ghost use Rattle.definition.specs.Calls as calls;
ghost use Rattle.definition.specs.Rules.{Opened};
ghost use Rattle.commands.specs.Promises.{Answers};
ghost use Rattle.addressing.specs.Promises.{addressed, Copies, Addresses, addressing};

use commands::outcome;
use commands::outcome::Tally;
use definition::{Endpoint, Outcome, Refusal, Slot, SlotState, Table};

// What the command leaves: both records, and what it answers with.
#[derive(Clone, Copy)]
pub struct Device {
    pub slot: Slot,
    pub endpoint: Endpoint,
    pub terminated: u64,
    pub port: u64,
    pub stored: u64,
}

// The slot context and endpoint 1's, at `from`, are copied to the slot's base; the slot state byte is stored between; endpoint 1 is launched.
fn copy_contexts(mem: &mut [u8], from: usize, slot: Slot, terminated: u64, stored: u64) -> Device
    requires { (from + 64 ≤ length mem.old) × (slot.base + 64 ≤ length mem.old) × (stored < 65536) }
    ensures { Copies from slot terminated mem.old stored result mem.new }
{
    let base = slot.base;
    let context = guest::context::read_context(mem, from);
    guest::context::store_context(mem, guest::address::index(base), context);
    outcome::store_slot_state(mem, base, slot.state);
    let launched = walks::copy_launch(mem, base, from + 32, 1);
    Device {
        slot,
        endpoint: launched.endpoint,
        terminated,
        port: launched.port,
        stored: stored + 66,
    }
}

// Enabled: the base is read from the DCBAA entry. Endpoint 1 is `first`.
fn first_address(
    mem: &mut [u8],
    slot: Slot,
    first: Endpoint,
    pointer: u64,
    next: SlotState,
) -> Result<Device, Refusal>
    ensures { Addresses first (λ len t id. commands.carry_out len pointer t id slot (commands.fresh next)) mem.old result mem.new }
{
    let length = mem.len() as u64;
    let at = guest::address::locate(slot.entry, 8, length).ok_or(Refusal::Outside)?;
    let base = guest::words::read_u64(mem, at);
    let input = guest::address::plus(pointer, 32);
    let from = guest::address::locate(input, 64, length).ok_or(Refusal::Outside)?;
    guest::address::locate(base, 64, length).ok_or(Refusal::Outside)?;
    let addressed = Slot {
        state: next,
        base,
        ..slot
    };
    Ok(copy_contexts(mem, from, addressed, 0, 0))
}

// Default, BSR=0: endpoint 1 is terminated first, and the base is the one kept.
fn second_address(
    mem: &mut [u8],
    slot: Slot,
    first: Endpoint,
    pointer: u64,
) -> Result<Device, Refusal>
    requires { (slot.base + 64 ≤ length mem.old) × (is_disabled first ≡ false) }
    ensures { Addresses first (λ len t id. commands.carry_out len pointer t id slot (commands.again Addressed)) mem.old result mem.new }
{
    let length = mem.len() as u64;
    let input = guest::address::plus(pointer, 32);
    let from = guest::address::locate(input, 64, length).ok_or(Refusal::Outside)?;
    let ended = walks::end_one(first, mem, slot.base, 1);
    let addressed = Slot {
        state: SlotState::Addressed,
        ..slot
    };
    Ok(copy_contexts(mem, from, addressed, 2, ended.stored))
}

// The context check comes first, then the state. (`attempt_unchecked` is for the edit `context_error_as_state`, which has a way out of its own for it.)
#[tactic(auto, using(crate::proofs::AddressLaws::attempt_unchecked))]
pub fn attempt(
    mem: &mut [u8],
    slot: Slot,
    first: Endpoint,
    pointer: u64,
    bsr: bool,
) -> Result<Device, Refusal>
    requires { slot.state ≡ Default → (slot.base + 64 ≤ length mem.old) × (is_disabled first ≡ false) }
    ensures { Addresses first (addressing slot pointer bsr) mem.old result mem.new }
{
    contexts::context_check(mem, pointer)?;
    match (slot.state, bsr) {
        (SlotState::Enabled, true) => {
            first_address(mem, slot, first, pointer, SlotState::Default)
        }
        (SlotState::Enabled, false) => {
            first_address(mem, slot, first, pointer, SlotState::Addressed)
        }
        (SlotState::Default, false) => second_address(mem, slot, first, pointer),
        _ => Err(Refusal::State),
    }
}

// The table with both records of the device, and the command's answer.
pub fn applied(mut t: Table, id: u64, done: Device) -> Outcome
    requires { (1 ≤ id) × (id ≤ 16) }
    ensures { result ≡ addressed t id done }
{
    let k = ((id - 1) * 31) as usize;
    t.endpoints[k] = done.endpoint;
    let j = (id - 1) as usize;
    t.slots[j] = done.slot;
    outcome::success(
        t,
        Tally {
            launched: 2,
            terminated: done.terminated,
            port: done.port,
            stored: done.stored,
        },
    )
}

pub fn address_device(
    t: Table,
    mem: &mut [u8],
    id: u64,
    slot: Slot,
    pointer: u64,
    bsr: bool,
) -> Outcome
    requires { Opened t mem.old id slot }
    ensures { Answers (calls.address_device id pointer bsr) t mem.old result mem.new }
{
    let k = ((id - 1) * 31) as usize;
    let first = t.endpoints[k];
    match attempt(mem, slot, first, pointer, bsr) {
        Ok(done) => applied(t, id, done),
        Err(refusal) => scan::refuse(t, refusal),
    }
}
