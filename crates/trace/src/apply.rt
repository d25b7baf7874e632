// A call of a record, carried out on a table and a memory.
ghost use Rattle.std.specs.Prelude.{◌≡◌, ℕ};
ghost use Rattle.definition.specs.declared.Table as tables;
ghost use Rattle.definition.specs.Refusals.{code_of};
ghost use Rattle.definition.specs.Commands.{endpoint_call};
ghost use Rattle.definition.specs.Calls.{meaning};
ghost use Rattle.commands.specs.Promises.{Answers};
ghost use Rattle.formed.specs.Promises.{Ready};
ghost use Rattle.trace.specs.Events.{asks, call_of, input_of};

use crate::{Asked, Call};
use definition::{Input, Outcome, Refusal, Table};

// What an endpoint is asked, as it is sent.
impl From<Asked> for Input {
    ghost from_gives = { λ asked input. input ≡ input_of asked };

    fn from(asked: Asked) -> Input {
        match asked {
            Asked::Stop => Input::Stop,
            Asked::Reset => Input::Reset,
            Asked::SetDequeue(place) => Input::SetDequeue(place),
            Asked::Doorbell(look) => Input::Doorbell(look),
            Asked::Ok(look) => Input::Ok(look),
            Asked::Stall(given) => Input::Stall(given),
            Asked::TransactionError(given) => Input::TransactionError(given),
            Asked::TrbError => Input::TrbError,
        }
    }
}

impl Asked {
    // The refusals where there is no such slot, and where there is no such endpoint.
    #[tactic(auto, unfolding(definition::specs::Calls::meaning, crate::specs::Events::asks))]
    fn absent(self) -> (Refusal, Refusal)
        ensures { (id i len : ℕ) (t : tables.Table) → meaning (asks id i self) len t ≡ endpoint_call (code_of result.0) (code_of result.1) id i (input_of self) len t }
    {
        match self {
            Asked::Stop | Asked::Reset | Asked::SetDequeue(_) | Asked::Doorbell(_) => {
                (Refusal::NoSlot, Refusal::NoEndpoint)
            }
            Asked::Ok(_) | Asked::Stall(_) | Asked::TransactionError(_) | Asked::TrbError => {
                (Refusal::Stray, Refusal::Stray)
            }
        }
    }
}

// The call c is carried out, on a well formed table of the memory's length.
#[tactic(auto, unfolding(crate::specs::Events::call_of))]
pub fn apply(t: Table, mem: &mut [u8], c: Call) -> Outcome
    requires { Ready t mem.old }
    ensures { Answers (call_of c) t mem.old result mem.new }
{
    match c {
        Call::SetLimit(limit) => registers::set_limit(t, limit),
        Call::SetDcbaap(dcbaap) => registers::set_dcbaap(t, dcbaap),
        Call::EnableSlot => registers::enable_slot(t),
        Call::DisableSlot(id) => formed::disable_slot(t, mem, id),
        Call::AddressDevice(x) => { formed::address_device(t, mem, x.id, x.pointer, x.flag) }
        Call::ConfigureEndpoint(x) => {
            formed::configure_endpoint(t, mem, x.id, x.pointer, x.flag)
        }
        Call::EvaluateContext(x) => { formed::evaluate_context(t, mem, x.id, x.pointer) }
        Call::ResetDevice(id) => formed::reset_device(t, mem, id),
        Call::ResetAll => registers::reset_all(t, mem),
        Call::Endpoint(r) => {
            let (slotless, absent) = r.asked.absent();
            formed::reach(
                t,
                mem,
                r.id,
                r.i,
                Input::from(r.asked),
                slotless.code(),
                absent.code(),
            )
        }
    }
}
