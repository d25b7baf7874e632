// The public calls of the slot manager: their names, one value for a call with what it brings, and how its answer is written.
#![tactic(auto)]

ghost use Rattle.std.specs.Prelude.{◌≡◌, slice_index_or};
ghost use Rattle.calls.specs.declared.Call.TheVariants.{HostTransactionError};
ghost use Rattle.calls.specs.declared.TheConstants.Call.{ALL};

use definition::{Answer, Dequeue, Look, Outcome, Table};
use std::fmt;

// A public call, in the order of the calls: the calls on the table, on a slot, on an endpoint.
#[derive(Clone, Copy, PartialEq, Eq, PartialOrd, Ord)]
pub enum Call {
    SetLimit,
    SetDcbaap,
    EnableSlot,
    ResetAll,
    DisableSlot,
    AddressDevice,
    ConfigureEndpoint,
    EvaluateContext,
    ResetDevice,
    StopEndpoint,
    ResetEndpoint,
    SetDequeue,
    Doorbell,
    HostOk,
    HostStall,
    HostTransactionError,
    HostTrbError,
}

impl Call {
    pub const ALL: [Call; 17] = [
        Call::SetLimit,
        Call::SetDcbaap,
        Call::EnableSlot,
        Call::ResetAll,
        Call::DisableSlot,
        Call::AddressDevice,
        Call::ConfigureEndpoint,
        Call::EvaluateContext,
        Call::ResetDevice,
        Call::StopEndpoint,
        Call::ResetEndpoint,
        Call::SetDequeue,
        Call::Doorbell,
        Call::HostOk,
        Call::HostStall,
        Call::HostTransactionError,
        Call::HostTrbError,
    ];
}

// A call by its number, which is its place in `ALL`. A number past the last stands for a host's transaction error.
impl From<usize> for Call {
    ghost from_gives = { λ number call. call ≡ slice_index_or ALL number HostTransactionError };

    fn from(number: usize) -> Call {
        Call::ALL
            .get(number)
            .copied()
            .unwrap_or(Call::HostTransactionError)
    }
}

impl fmt::Display for Call {
    fn fmt<W: fmt::Write>(&self, f: &mut fmt::Formatter<W>) -> fmt::Result {
        f.write_str(match self {
            Call::SetLimit => "set-limit",
            Call::SetDcbaap => "set-dcbaap",
            Call::EnableSlot => "enable-slot",
            Call::ResetAll => "reset-all",
            Call::DisableSlot => "disable-slot",
            Call::AddressDevice => "address-device",
            Call::ConfigureEndpoint => "configure-endpoint",
            Call::EvaluateContext => "evaluate-context",
            Call::ResetDevice => "reset-device",
            Call::StopEndpoint => "stop-endpoint",
            Call::ResetEndpoint => "reset-endpoint",
            Call::SetDequeue => "set-dequeue",
            Call::Doorbell => "doorbell",
            Call::HostOk => "host-ok",
            Call::HostStall => "host-stall",
            Call::HostTransactionError => "host-transaction-error",
            Call::HostTrbError => "host-trb-error",
        })
    }
}

// One call. What it takes of an id, an endpoint's number, a pointer and a flag is its own affair: a limit and DCBAAP come as the id.
// The numbers lie beside the call and not in its variant, since every call is given the same ones, and all four are printed.
#[derive(Clone, Copy)]
pub struct Try {
    pub call: Call,
    pub id: u64,
    pub i: u64,
    pub pointer: u64,
    pub flag: bool,
}

// The call with its numbers.
impl fmt::Display for Try {
    fn fmt<W: fmt::Write>(&self, f: &mut fmt::Formatter<W>) -> fmt::Result {
        let Try {
            call,
            id,
            i,
            pointer,
            flag,
        } = *self;
        write!(f, "{call} {id} {i} {pointer} {}", u8::from(flag))
    }
}

impl Try {
    fn place(self) -> Dequeue {
        Dequeue {
            pointer: self.pointer,
            cycle: self.flag,
        }
    }

    // A look that has found a TRB.
    fn look(self) -> Look {
        Look {
            found: true,
            pointer: self.pointer,
            cycle: self.flag,
        }
    }
}

pub fn make(t: Table, mem: &mut [u8], x: Try) -> Outcome {
    match x.call {
        Call::SetLimit => slot_manager::set_limit(t, x.id),
        Call::SetDcbaap => slot_manager::set_dcbaap(t, x.id),
        Call::EnableSlot => slot_manager::enable_slot(t),
        Call::ResetAll => slot_manager::reset_all(t, mem),
        Call::DisableSlot => slot_manager::disable_slot(t, mem, x.id),
        Call::AddressDevice => slot_manager::address_device(t, mem, x.id, x.pointer, x.flag),
        Call::ConfigureEndpoint => {
            slot_manager::configure_endpoint(t, mem, x.id, x.pointer, x.flag)
        }
        Call::EvaluateContext => slot_manager::evaluate_context(t, mem, x.id, x.pointer),
        Call::ResetDevice => slot_manager::reset_device(t, mem, x.id),
        Call::StopEndpoint => slot_manager::stop_endpoint(t, mem, x.id, x.i),
        Call::ResetEndpoint => slot_manager::reset_endpoint(t, mem, x.id, x.i),
        Call::SetDequeue => slot_manager::set_dequeue(t, mem, x.id, x.i, x.place()),
        Call::Doorbell => slot_manager::doorbell(t, mem, x.id, x.i, x.look()),
        Call::HostOk => slot_manager::host_ok(t, mem, x.id, x.i, x.look()),
        Call::HostStall => slot_manager::host_stall(t, mem, x.id, x.i, Some(x.place())),
        Call::HostTransactionError => {
            slot_manager::host_transaction_error(t, mem, x.id, x.i, Some(x.place()))
        }
        Call::HostTrbError => slot_manager::host_trb_error(t, mem, x.id, x.i),
    }
}

// An answer as it is written: its eight numbers.
#[derive(Clone, Copy, Debug, PartialEq, Eq)]
pub struct Shown(pub Answer);

impl fmt::Display for Shown {
    fn fmt<W: fmt::Write>(&self, f: &mut fmt::Formatter<W>) -> fmt::Result {
        let Answer {
            code,
            slot,
            launched,
            terminated,
            port,
            stored,
            submit,
            cancel,
        } = self.0;
        write!(
            f,
            "{code} {slot} {launched} {terminated} {port} {stored} {submit} {cancel}"
        )
    }
}
