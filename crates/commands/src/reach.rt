// The calls that reach one endpoint: Stop, Reset, Set Dequeue, doorbell and the host events (xHCI 4.6.8 to 4.6.10, 4.7).
ghost use Rattle.std.specs.Prelude.{◌≡◌, true, false, ◌*◌, ◌≤◌, length};
ghost use Rattle.guest.specs.Bytes.{◌⊕◌};
ghost use Rattle.definition.specs.Table.{is_disabled, slot_of, well_formed};
ghost use Rattle.endpoint.specs.Promises.{Ready};
ghost use Rattle.commands.specs.Promises.{Settles, reaching, step_answer, applied_with, Reaches};

use definition::{Answer, Endpoint, Input, Outcome, Refusal, Slot, Table};
use endpoint::Taken;

// The endpoint with this record, endpoint i of the slot, takes the input: its step, or nothing where it is absent or disabled.
pub fn settle(
    e: Endpoint,
    mem: &mut [u8],
    slot: Slot,
    i: u64,
    input: Input,
) -> Option<Result<Taken, Refusal>>
    requires { is_disabled e ≡ false → (i ≤ 31) × Ready e (slot.base ⊕ 32 * i) mem.old }
    ensures { Reaches e slot i input mem.old result mem.new }
{
    if e.is_disabled() {
        return None;
    }
    let at = guest::address::index(guest::address::plus(slot.base, 32 * i));
    Some(endpoint::step(e, input, mem, at))
}

// What a step answers.
pub fn answer_of(taken: Taken) -> Answer
    ensures { result ≡ step_answer taken }
{
    Answer {
        stored: taken.stored,
        submit: u64::from(taken.submit),
        cancel: u64::from(taken.cancel),
        ..scan::answer(taken.code)
    }
}

// The table with the endpoint's record, and the call's answer. (An answer, and no step: the contract takes any numbers.)
pub fn applied(t: Table, id: u64, i: u64, endpoint: Endpoint, answer: Answer) -> Outcome
    requires { (1 ≤ id) × (id ≤ 16) × (1 ≤ i) × (i ≤ 31) }
    ensures { result ≡ applied_with t id i endpoint answer }
{
    let k = ((id - 1) * 31 + (i - 1)) as usize;
    // A table of its own: an argument that is written is copied first.
    let mut table = t;
    table.endpoints[k] = endpoint;
    Outcome { table, answer }
}

// Endpoint i of the slot takes the input. `absent` is the code where it is absent or disabled: 12, or 196 for a host event. (A number: the contract
// takes any, and a narrower type would ask more.) Opened in its caller, as the calls are (`slot_manager`).
#[inline(always)]
pub fn reach(
    t: Table,
    mem: &mut [u8],
    id: u64,
    slot: Slot,
    i: u64,
    input: Input,
    absent: u64,
) -> Outcome
    requires { (1 ≤ id) × (id ≤ 16) × (well_formed t ≡ true) × (t.length ≡ length mem.old) × (slot_of t id ≡ slot) }
    ensures { Settles (reaching absent id i input slot t) t mem.old result mem.new }
{
    if !(1..=31).contains(&i) {
        return scan::refused(t, absent);
    }
    let k = ((id - 1) * 31 + (i - 1)) as usize;
    let e = t.endpoints[k];
    let Some(step) = settle(e, mem, slot, i, input) else {
        return scan::refused(t, absent);
    };
    let taken = match step {
        Ok(taken) => taken,
        Err(refusal) => return scan::refuse(t, refusal),
    };
    applied(t, id, i, taken.endpoint, answer_of(taken))
}
