// Disable Slot, Evaluate Context and Reset Device (xHCI 4.6.4, 4.6.7, 4.6.11).
ghost use Rattle.std.specs.Prelude.{◌≡◌, length};
ghost use Rattle.definition.specs.Commands as commands;
ghost use Rattle.definition.specs.Calls as calls;
ghost use Rattle.definition.specs.Rules.{Opened};
ghost use Rattle.walks.specs.Promises.{Rooms};
ghost use Rattle.commands.specs.Promises.{Carries, Answers, Based, is_settled};

use crate::outcome;
use crate::outcome::Tally;
use definition::{Outcome, Refusal, Slot, SlotState, Table};

// All endpoints are terminated, and the slot is free. The slot state byte is untouched.
pub fn disable_slot(t: Table, mem: &mut [u8], id: u64, slot: Slot) -> Outcome
    requires { Opened t mem.old id slot }
    ensures { Answers (calls.disable_slot id) t mem.old result mem.new }
{
    let ended = walks::terminate_from(t, mem, id, slot.base, 1);
    // A table of its own: written within `ended`, it is copied once more.
    let mut table = ended.table;
    let j = (id - 1) as usize;
    table.slots[j] = Slot::FREE;
    outcome::success(
        table,
        Tally {
            terminated: ended.terminated,
            stored: ended.stored,
            ..Tally::NOTHING
        },
    )
}

// The context check alone.
pub fn evaluate_context(t: Table, mem: &[u8], id: u64, slot: Slot, pointer: u64) -> Outcome
    requires { Opened t mem.now id slot }
    ensures { Answers (calls.evaluate_context id pointer) t mem.now result mem.now }
{
    if let Err(refusal) = contexts::context_check(mem, pointer) {
        return scan::refuse(t, refusal);
    }
    outcome::success(t, Tally::NOTHING)
}

// Configure Endpoint and Reset Device take a slot in this state.
pub fn is_settled(state: SlotState) -> bool
    ensures { result ≡ is_settled state }
{
    matches!(state, SlotState::Addressed | SlotState::Configured)
}

// Endpoints 2 to 31 are terminated, and the slot goes to its next state.
pub fn deconfigure(t: Table, mem: &mut [u8], id: u64, slot: Slot, next: SlotState) -> Outcome
    requires based { Based id slot.base (length mem.old) }
    requires rooms { Rooms t id slot.base 2 (length mem.old) }
    ensures { Carries (commands.deconfigure id slot next t) mem.old 0 result mem.new }
{
    let ended = walks::terminate_from(t, mem, id, slot.base, 2);
    outcome::finish(
        ended.table,
        mem,
        id,
        slot,
        next,
        Tally {
            terminated: ended.terminated,
            stored: ended.stored,
            ..Tally::NOTHING
        },
    )
}

pub fn reset_device(t: Table, mem: &mut [u8], id: u64, slot: Slot) -> Outcome
    requires { Opened t mem.old id slot }
    ensures { Answers (calls.reset_device id) t mem.old result mem.new }
{
    // A name of its own: `must-fail/reset_refuses_all.edit` negates this line, and the test's name in the proof stays.
    let settled = is_settled(slot.state);
    if !settled {
        return scan::refuse(t, Refusal::State);
    }
    deconfigure(t, mem, id, slot, SlotState::Default)
}
