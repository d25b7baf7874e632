// Recorded sessions: records of 32 bytes, each a call or a guest store of one byte. docs/TRACE.md has the layout and numbers the kinds.
#![tactic(auto)]

pub mod apply;
pub mod record;

use definition::{Dequeue, Look};

// What a record tells: a call, or a guest store.
#[derive(Clone, Copy)]
pub enum Entry {
    Call(Call),
    Store(Byte),
}

// The error of a bad record: not 32 bytes long, of no known kind, not zero where it has to be, or a store of no byte or outside the memory.
#[derive(Clone, Copy)]
pub struct BadRecord;

// A guest store of one byte.
#[derive(Clone, Copy)]
pub struct Byte {
    pub address: u64,
    pub value: u8,
}

// The calls, with a slot's id where they have one.
#[derive(Clone, Copy)]
pub enum Call {
    SetLimit(u64),
    SetDcbaap(u64),
    EnableSlot,
    DisableSlot(u64),
    AddressDevice(Contexts),
    ConfigureEndpoint(Contexts),
    EvaluateContext(Contexts),
    ResetDevice(u64),
    ResetAll,
    Endpoint(Reach),
}

// A command over an input context: the slot's id, the input context pointer, and BSR or DC.
#[derive(Clone, Copy)]
pub struct Contexts {
    pub id: u64,
    pub pointer: u64,
    pub flag: bool,
}

// A call that reaches endpoint i of slot id.
#[derive(Clone, Copy)]
pub struct Reach {
    pub id: u64,
    pub i: u64,
    pub asked: Asked,
}

// What it is asked: a command, a doorbell or a host event. (An endpoint's `Input` but for Terminate, which no record can ask.)
#[derive(Clone, Copy)]
pub enum Asked {
    Stop,
    Reset,
    SetDequeue(Dequeue),
    Doorbell(Look),
    Ok(Look),
    Stall(Option<Dequeue>),
    TransactionError(Option<Dequeue>),
    TrbError,
}
