// The slot manager's calls. None asks anything of its caller: whatever the numbers, the table and the memory, the outcome and every byte of memory
// are what the definition's program for the call gives. 198 comes first, then 194, then 11.
// Each command opens by itself and takes the slot apart by `let .. else`: a rule of the project. A shared opening would hand the table on, one copy more.
// Each call on a slot has a twin by name in `formed`, which asks for a well-formed table and does not scan it: README.md and docs/CLAIMS.md name both.
#![tactic(auto)]

ghost use Rattle.std.specs.Prelude.{◌≡◌, length};
ghost use Rattle.definition.specs.Refusals.{code_of};
ghost use Rattle.definition.specs.Commands.{endpoint_call};
ghost use Rattle.definition.specs.Calls.{set_limit, set_dcbaap, enable_slot, reset_all, disable_slot, address_device, configure_endpoint, evaluate_context, reset_device, stop_endpoint, reset_endpoint, set_dequeue, doorbell, host_ok, host_stall, host_transaction_error, host_trb_error, made};
ghost use Rattle.registers.specs.Promises.{AnswersAlone};
ghost use Rattle.commands.specs.Promises.{Answers, Settles};

use definition::Refusal::{NoEndpoint, NoSlot, Stray};
use definition::{Dequeue, Input, Look, Outcome, Refusal, Table};

// ---- the table and its registers

// A fresh table for a memory of this length; 197 and a table for length 0 where that is too long.
pub fn make_table(length: u64) -> Outcome
    ensures { result ≡ made length }
{
    registers::make_table(length)
}

// The slot limit, 0 to 16.
pub fn set_limit(t: Table, limit: u64) -> Outcome
    ensures { AnswersAlone (set_limit limit) t result }
{
    if !scan::well_formed(t) {
        return scan::refuse(t, Refusal::Malformed);
    }
    registers::set_limit(t, limit)
}

// DCBAAP, kept as given.
pub fn set_dcbaap(t: Table, dcbaap: u64) -> Outcome
    ensures { AnswersAlone (set_dcbaap dcbaap) t result }
{
    if !scan::well_formed(t) {
        return scan::refuse(t, Refusal::Malformed);
    }
    registers::set_dcbaap(t, dcbaap)
}

// Enable Slot (xHCI 4.6.3): the smallest free id within the limit, or 9.
pub fn enable_slot(t: Table) -> Outcome
    ensures { AnswersAlone enable_slot t result }
{
    if !scan::well_formed(t) {
        return scan::refuse(t, Refusal::Malformed);
    }
    registers::enable_slot(t)
}

// Every slot is freed, ascending; limit and DCBAAP are 0.
pub fn reset_all(t: Table, mem: &mut [u8]) -> Outcome
    ensures { Answers reset_all t mem.old result mem.new }
{
    if let Err(refusal) = scan::checks(t, mem.len() as u64) {
        return scan::refuse(t, refusal);
    }
    registers::reset_all(t, mem)
}

// ---- commands on a slot

// All its endpoints are terminated, and the slot is free (xHCI 4.6.4).
pub fn disable_slot(t: Table, mem: &mut [u8], id: u64) -> Outcome
    ensures { Answers (disable_slot id) t mem.old result mem.new }
{
    let head = match scan::opens(t, mem.len() as u64, id, 0) {
        Ok(head) => head,
        Err(refusal) => return scan::refuse(t, refusal),
    };
    let Some(slot) = head.found else {
        return scan::refuse(t, NoSlot);
    };
    commands::device::disable_slot(t, mem, id, slot)
}

// Address Device (xHCI 4.6.5).
pub fn address_device(t: Table, mem: &mut [u8], id: u64, pointer: u64, bsr: bool) -> Outcome
    ensures { Answers (address_device id pointer bsr) t mem.old result mem.new }
{
    let head = match scan::opens(t, mem.len() as u64, id, 1) {
        Ok(head) => head,
        Err(refusal) => return scan::refuse(t, refusal),
    };
    let Some(slot) = head.found else {
        return scan::refuse(t, NoSlot);
    };
    match addressing::attempt(mem, slot, head.endpoint, pointer, bsr) {
        Ok(done) => addressing::applied(t, id, done),
        Err(refusal) => scan::refuse(t, refusal),
    }
}

// Configure Endpoint (xHCI 4.6.6).
pub fn configure_endpoint(t: Table, mem: &mut [u8], id: u64, pointer: u64, dc: bool) -> Outcome
    ensures { Answers (configure_endpoint id pointer dc) t mem.old result mem.new }
{
    let head = match scan::opens(t, mem.len() as u64, id, 0) {
        Ok(head) => head,
        Err(refusal) => return scan::refuse(t, refusal),
    };
    let Some(slot) = head.found else {
        return scan::refuse(t, NoSlot);
    };
    commands::configure::configure_endpoint(t, mem, id, slot, pointer, dc)
}

// Evaluate Context: the context check alone (xHCI 4.6.7).
pub fn evaluate_context(t: Table, mem: &[u8], id: u64, pointer: u64) -> Outcome
    ensures { Answers (evaluate_context id pointer) t mem.now result mem.now }
{
    let head = match scan::opens(t, mem.len() as u64, id, 0) {
        Ok(head) => head,
        Err(refusal) => return scan::refuse(t, refusal),
    };
    let Some(slot) = head.found else {
        return scan::refuse(t, NoSlot);
    };
    commands::device::evaluate_context(t, mem, id, slot, pointer)
}

// Reset Device (xHCI 4.6.11).
pub fn reset_device(t: Table, mem: &mut [u8], id: u64) -> Outcome
    ensures { Answers (reset_device id) t mem.old result mem.new }
{
    let head = match scan::opens(t, mem.len() as u64, id, 0) {
        Ok(head) => head,
        Err(refusal) => return scan::refuse(t, refusal),
    };
    let Some(slot) = head.found else {
        return scan::refuse(t, NoSlot);
    };
    commands::device::reset_device(t, mem, id, slot)
}

// ---- calls that reach one endpoint
//
// They and `reach` are opened in their callers: a function of its own is handed the table and hands one back, two copies more.

// Endpoint i of slot id takes the input. `slotless` and `absent` are the refusals where there is no such slot or endpoint.
#[inline(always)]
fn reach(
    t: Table,
    mem: &mut [u8],
    id: u64,
    i: u64,
    input: Input,
    slotless: Refusal,
    absent: Refusal,
) -> Outcome
    ensures { Settles (endpoint_call (code_of slotless) (code_of absent) id i input (length mem.old) t) t mem.old result mem.new }
{
    let head = match scan::opens(t, mem.len() as u64, id, i) {
        Ok(head) => head,
        Err(refusal) => return scan::refuse(t, refusal),
    };
    let Some(slot) = head.found else {
        return scan::refuse(t, slotless);
    };
    let Some(step) = commands::reach::settle(head.endpoint, mem, slot, i, input) else {
        return scan::refuse(t, absent);
    };
    let taken = match step {
        Ok(taken) => taken,
        Err(refusal) => return scan::refuse(t, refusal),
    };
    commands::reach::applied(t, id, i, taken.endpoint, commands::reach::answer_of(taken))
}

// Stop Endpoint (xHCI 4.6.9).
#[inline(always)]
pub fn stop_endpoint(t: Table, mem: &mut [u8], id: u64, i: u64) -> Outcome
    ensures { Answers (stop_endpoint id i) t mem.old result mem.new }
{
    reach(t, mem, id, i, Input::Stop, NoSlot, NoEndpoint)
}

// Reset Endpoint (xHCI 4.6.8).
#[inline(always)]
pub fn reset_endpoint(t: Table, mem: &mut [u8], id: u64, i: u64) -> Outcome
    ensures { Answers (reset_endpoint id i) t mem.old result mem.new }
{
    reach(t, mem, id, i, Input::Reset, NoSlot, NoEndpoint)
}

// Set TR Dequeue Pointer (xHCI 4.6.10).
#[inline(always)]
pub fn set_dequeue(t: Table, mem: &mut [u8], id: u64, i: u64, place: Dequeue) -> Outcome
    ensures { Answers (set_dequeue id i place) t mem.old result mem.new }
{
    reach(t, mem, id, i, Input::SetDequeue(place), NoSlot, NoEndpoint)
}

// A doorbell, with what the look at the ring reports (xHCI 4.7).
#[inline(always)]
pub fn doorbell(t: Table, mem: &mut [u8], id: u64, i: u64, look: Look) -> Outcome
    ensures { Answers (doorbell id i look) t mem.old result mem.new }
{
    reach(t, mem, id, i, Input::Doorbell(look), NoSlot, NoEndpoint)
}

// The host has finished the transfer; with what the next look at the ring reports.
#[inline(always)]
pub fn host_ok(t: Table, mem: &mut [u8], id: u64, i: u64, look: Look) -> Outcome
    ensures { Answers (host_ok id i look) t mem.old result mem.new }
{
    reach(t, mem, id, i, Input::Ok(look), Stray, Stray)
}

// The device has stalled.
#[inline(always)]
pub fn host_stall(t: Table, mem: &mut [u8], id: u64, i: u64, given: Option<Dequeue>) -> Outcome
    ensures { Answers (host_stall id i given) t mem.old result mem.new }
{
    reach(t, mem, id, i, Input::Stall(given), Stray, Stray)
}

// The transfer has failed on the bus.
#[inline(always)]
pub fn host_transaction_error(
    t: Table,
    mem: &mut [u8],
    id: u64,
    i: u64,
    given: Option<Dequeue>,
) -> Outcome
    ensures { Answers (host_transaction_error id i given) t mem.old result mem.new }
{
    reach(t, mem, id, i, Input::TransactionError(given), Stray, Stray)
}

// The TRB is in error.
#[inline(always)]
pub fn host_trb_error(t: Table, mem: &mut [u8], id: u64, i: u64) -> Outcome
    ensures { Answers (host_trb_error id i) t mem.old result mem.new }
{
    reach(t, mem, id, i, Input::TrbError, Stray, Stray)
}
