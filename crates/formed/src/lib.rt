// The calls on a slot for a caller that has proved its table well formed and of the memory's length: each promises what its namesake does, without the scan.
// Every call keeps a table so (`stays_ready`). The calls on no slot stand in `registers`.
// Each asks `Ready t mem.old` in a clause: README.md and docs/CLAIMS.md name these calls so, and a type with an invariant is one that a caller has to build.
// Each is the twin by name of a call of `slot_manager`, which scans: README.md and docs/CLAIMS.md name both.
#![tactic(auto)]

ghost use Rattle.definition.specs.Calls.{disable_slot, address_device, configure_endpoint, evaluate_context, reset_device, stop_endpoint, reset_endpoint, set_dequeue, doorbell, host_ok, host_stall, host_transaction_error, host_trb_error};
ghost use Rattle.std.specs.Prelude.{length};
ghost use Rattle.definition.specs.Commands.{endpoint_call};
ghost use Rattle.commands.specs.Promises.{Answers, Settles};
ghost use Rattle.formed.specs.Promises.{Ready};

use definition::{Dequeue, Input, Look, Outcome, Refusal, Table};

// The codes that `reach` is given: numbers, since its contract takes any, and a narrower type would ask more.
const NO_SLOT: u64 = Refusal::NoSlot as u64;

const NO_ENDPOINT: u64 = Refusal::NoEndpoint as u64;

const STRAY: u64 = Refusal::Stray as u64;

pub fn disable_slot(t: Table, mem: &mut [u8], id: u64) -> Outcome
    requires { Ready t mem.old }
    ensures { Answers (disable_slot id) t mem.old result mem.new }
{
    let Some(slot) = scan::lookup(t, id) else {
        return scan::refuse(t, Refusal::NoSlot);
    };
    commands::device::disable_slot(t, mem, id, slot)
}

pub fn address_device(t: Table, mem: &mut [u8], id: u64, pointer: u64, bsr: bool) -> Outcome
    requires { Ready t mem.old }
    ensures { Answers (address_device id pointer bsr) t mem.old result mem.new }
{
    let Some(slot) = scan::lookup(t, id) else {
        return scan::refuse(t, Refusal::NoSlot);
    };
    addressing::address_device(t, mem, id, slot, pointer, bsr)
}

pub fn configure_endpoint(t: Table, mem: &mut [u8], id: u64, pointer: u64, dc: bool) -> Outcome
    requires { Ready t mem.old }
    ensures { Answers (configure_endpoint id pointer dc) t mem.old result mem.new }
{
    let Some(slot) = scan::lookup(t, id) else {
        return scan::refuse(t, Refusal::NoSlot);
    };
    commands::configure::configure_endpoint(t, mem, id, slot, pointer, dc)
}

pub fn evaluate_context(t: Table, mem: &[u8], id: u64, pointer: u64) -> Outcome
    requires { Ready t mem.now }
    ensures { Answers (evaluate_context id pointer) t mem.now result mem.now }
{
    let Some(slot) = scan::lookup(t, id) else {
        return scan::refuse(t, Refusal::NoSlot);
    };
    commands::device::evaluate_context(t, mem, id, slot, pointer)
}

pub fn reset_device(t: Table, mem: &mut [u8], id: u64) -> Outcome
    requires { Ready t mem.old }
    ensures { Answers (reset_device id) t mem.old result mem.new }
{
    let Some(slot) = scan::lookup(t, id) else {
        return scan::refuse(t, Refusal::NoSlot);
    };
    commands::device::reset_device(t, mem, id, slot)
}

// What the calls that reach one endpoint share: endpoint i of slot id takes the input. `slotless` is the code where there is no such slot, `absent` where the
// endpoint is absent or disabled. (Numbers: the contract takes any.) It and these calls are opened in their callers, as in `slot_manager`.
#[inline(always)]
pub fn reach(
    t: Table,
    mem: &mut [u8],
    id: u64,
    i: u64,
    input: Input,
    slotless: u64,
    absent: u64,
) -> Outcome
    requires { Ready t mem.old }
    ensures { Settles (endpoint_call slotless absent id i input (length mem.old) t) t mem.old result mem.new }
{
    let Some(slot) = scan::lookup(t, id) else {
        return scan::refused(t, slotless);
    };
    commands::reach::reach(t, mem, id, slot, i, input, absent)
}

#[inline(always)]
pub fn stop_endpoint(t: Table, mem: &mut [u8], id: u64, i: u64) -> Outcome
    requires { Ready t mem.old }
    ensures { Answers (stop_endpoint id i) t mem.old result mem.new }
{
    reach(t, mem, id, i, Input::Stop, NO_SLOT, NO_ENDPOINT)
}

#[inline(always)]
pub fn reset_endpoint(t: Table, mem: &mut [u8], id: u64, i: u64) -> Outcome
    requires { Ready t mem.old }
    ensures { Answers (reset_endpoint id i) t mem.old result mem.new }
{
    reach(t, mem, id, i, Input::Reset, NO_SLOT, NO_ENDPOINT)
}

#[inline(always)]
pub fn set_dequeue(t: Table, mem: &mut [u8], id: u64, i: u64, place: Dequeue) -> Outcome
    requires { Ready t mem.old }
    ensures { Answers (set_dequeue id i place) t mem.old result mem.new }
{
    reach(
        t,
        mem,
        id,
        i,
        Input::SetDequeue(place),
        NO_SLOT,
        NO_ENDPOINT,
    )
}

#[inline(always)]
pub fn doorbell(t: Table, mem: &mut [u8], id: u64, i: u64, look: Look) -> Outcome
    requires { Ready t mem.old }
    ensures { Answers (doorbell id i look) t mem.old result mem.new }
{
    reach(t, mem, id, i, Input::Doorbell(look), NO_SLOT, NO_ENDPOINT)
}

#[inline(always)]
pub fn host_ok(t: Table, mem: &mut [u8], id: u64, i: u64, look: Look) -> Outcome
    requires { Ready t mem.old }
    ensures { Answers (host_ok id i look) t mem.old result mem.new }
{
    reach(t, mem, id, i, Input::Ok(look), STRAY, STRAY)
}

#[inline(always)]
pub fn host_stall(t: Table, mem: &mut [u8], id: u64, i: u64, given: Option<Dequeue>) -> Outcome
    requires { Ready t mem.old }
    ensures { Answers (host_stall id i given) t mem.old result mem.new }
{
    reach(t, mem, id, i, Input::Stall(given), STRAY, STRAY)
}

#[inline(always)]
pub fn host_transaction_error(
    t: Table,
    mem: &mut [u8],
    id: u64,
    i: u64,
    given: Option<Dequeue>,
) -> Outcome
    requires { Ready t mem.old }
    ensures { Answers (host_transaction_error id i given) t mem.old result mem.new }
{
    reach(t, mem, id, i, Input::TransactionError(given), STRAY, STRAY)
}

#[inline(always)]
pub fn host_trb_error(t: Table, mem: &mut [u8], id: u64, i: u64) -> Outcome
    requires { Ready t mem.old }
    ensures { Answers (host_trb_error id i) t mem.old result mem.new }
{
    reach(t, mem, id, i, Input::TrbError, STRAY, STRAY)
}
