// Configure Endpoint (xHCI 4.6.6).
ghost use Rattle.std.specs.Prelude.{◌≡◌, true, false, ◌+◌, ◌≤◌, length};
ghost use Rattle.definition.specs.Calls as calls;
ghost use Rattle.definition.specs.Rules.{Opened};
ghost use Rattle.commands.specs.Promises.{Answers, Plans, is_settled};

use crate::outcome::Tally;
use crate::{device, outcome};
use definition::{Outcome, Refusal, Slot, SlotState, Table};

// What is to be done, found before anything is stored, and once every range lies in memory: the drop and add flags, of which bits 2 to 31 count, and
// the slot's next state.
#[derive(Clone, Copy)]
pub struct Flags {
    pub drops: u32,
    pub adds: u32,
    pub next: SlotState,
}

// DC=0: the context check, the drop flags, the ranges.
fn flags_of(mem: &[u8], slot: Slot, pointer: u64) -> Result<Flags, Refusal>
    requires { (is_settled slot.state ≡ true) × (slot.base + 64 ≤ length mem.now) }
    ensures { Plans pointer slot false mem.now result }
{
    let adds = contexts::context_check(mem, pointer)?;
    let length = mem.len() as u64;
    let at = guest::address::locate(pointer, 4, length).ok_or(Refusal::Outside)?;
    let drops = guest::words::read_u32(mem, at);
    if !contexts::ranges_inside(length, pointer, slot.base, adds) {
        return Err(Refusal::Outside);
    }
    Ok(Flags {
        drops,
        adds,
        next: SlotState::Configured,
    })
}

// The state comes first. DC=1 drops endpoints 2 to 31, and does not use the pointer.
fn plan_of(mem: &[u8], slot: Slot, pointer: u64, dc: bool) -> Result<Flags, Refusal>
    requires { is_settled slot.state ≡ true → slot.base + 64 ≤ length mem.now }
    ensures { Plans pointer slot dc mem.now result }
{
    if !device::is_settled(slot.state) {
        return Err(Refusal::State);
    }
    if dc {
        return Ok(Flags {
            drops: 0xffff_ffff,
            adds: 0,
            next: SlotState::Addressed,
        });
    }
    flags_of(mem, slot, pointer)
}

// All drops, then all adds, then the slot state byte.
// (`configure_unsettled` is for the edit `unsettled_answers_one`, which refuses such a slot here.)
#[tactic(auto, using(crate::proofs::ConfigureLaws::configure_unsettled))]
pub fn configure_endpoint(
    t: Table,
    mem: &mut [u8],
    id: u64,
    slot: Slot,
    pointer: u64,
    dc: bool,
) -> Outcome
    requires { Opened t mem.old id slot }
    ensures { Answers (calls.configure_endpoint id pointer dc) t mem.old result mem.new }
{
    let flags = match plan_of(mem, slot, pointer, dc) {
        Ok(flags) => flags,
        Err(refusal) => return scan::refuse(t, refusal),
    };
    let ended = walks::terminate_flagged(t, mem, id, slot.base, flags.drops);
    let added = walks::add_flagged(ended.table, mem, id, pointer, slot.base, flags.adds);
    outcome::finish(
        added.table,
        mem,
        id,
        slot,
        flags.next,
        Tally {
            launched: added.launched,
            terminated: ended.terminated,
            port: added.port,
            stored: ended.stored + added.stored,
        },
    )
}
