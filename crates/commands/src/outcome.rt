// What commands give back.
ghost use Rattle.std.specs.Prelude.{◌≡◌, [], ◌∷◌, ◌+◌, ◌≤◌, ◌<◌, length};
ghost use Rattle.guest.specs.Bytes.{slot_state_byte};
ghost use Rattle.guest.specs.Prog.{splice};
ghost use Rattle.definition.specs.Commands as commands;
ghost use Rattle.walks.specs.Promises.{walk};
ghost use Rattle.commands.specs.Promises.{tallied, Carries, Based};

use definition::{Answer, Outcome, Slot, SlotState, Table};

// What a command on endpoints answers with.
#[derive(Clone, Copy)]
pub struct Tally {
    pub launched: u64,
    pub terminated: u64,
    pub port: u64,
    pub stored: u64,
}

impl Tally {
    pub const NOTHING: Tally = Tally {
        launched: 0,
        terminated: 0,
        port: 0,
        stored: 0,
    };
}

// Success, with what was launched, terminated and stored.
pub fn success(t: Table, tally: Tally) -> Outcome
    ensures { result ≡ tallied t tally }
{
    Outcome {
        table: t,
        answer: Answer {
            launched: tally.launched,
            terminated: tally.terminated,
            port: tally.port,
            stored: tally.stored,
            ..scan::answer(1)
        },
    }
}

// The slot state as the slot context has it (xHCI 6.2.2).
pub fn context_state(state: SlotState) -> u8
    ensures { (result ≡ commands.context_state state) × (result ≤ 3) }
{
    match state {
        SlotState::Free => 0,
        SlotState::Enabled => 0,
        SlotState::Default => 1,
        SlotState::Addressed => 2,
        SlotState::Configured => 3,
    }
}

// The slot state byte of the device context at `base`.
pub fn store_slot_state(mem: &mut [u8], base: u64, state: SlotState)
    requires { base + 64 ≤ length mem.old }
    ensures { mem.new ≡ splice mem.old (base + 15) (slot_state_byte (commands.context_state state) ∷ []) }
{
    let byte = guest::bits::slot_state_byte(context_state(state));
    guest::words::store_byte(mem, guest::address::index(base) + 15, byte);
}

// Slot id goes to its next state: the slot state byte is stored, last of all.
pub fn finish(
    mut t: Table,
    mem: &mut [u8],
    id: u64,
    slot: Slot,
    next: SlotState,
    tally: Tally,
) -> Outcome
    requires based { Based id slot.base (length mem.old) }
    requires stored_bound { tally.stored < 65536 }
    ensures { Carries (commands.finish id slot next (walk t tally.launched tally.terminated tally.port)) mem.old tally.stored result mem.new }
{
    store_slot_state(mem, slot.base, next);
    let j = (id - 1) as usize;
    t.slots[j] = Slot {
        state: next,
        ..slot
    };
    success(
        t,
        Tally {
            stored: tally.stored + 1,
            ..tally
        },
    )
}
