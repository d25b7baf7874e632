// The types of the slot table, its calls and their answers. No call runs here: specs/ says what each means.
#![tactic(auto)]

ghost use Rattle.std.specs.Prelude.{eqb, ◌≡◌};
ghost use Rattle.definition.specs.Table as tables;
ghost use Rattle.definition.specs.Refusals.{code_of};
ghost use Rattle.definition.specs.Steps.{unlooked};

// ---- the table

// Disabled, and the six states in which an endpoint rests.
#[derive(Clone, Copy, Debug, PartialEq, Eq)]
pub enum EndpointState {
    Disabled,
    Waiting,
    InFlight,
    Halted,
    Error,
    StoppedContinuable,
    Stopped,
}

impl EndpointState {
    pub fn number(self) -> u8
        ensures { result ≡ tables.endpoint_number self }
    {
        self as u8
    }
}

// An endpoint: its state, and its place on the transfer ring.
#[derive(Clone, Copy, Debug, PartialEq, Eq)]
pub struct Endpoint {
    pub state: EndpointState,
    pub cycle: bool,
    pub pointer: u64,
}

impl Endpoint {
    pub const DISABLED: Endpoint = Endpoint {
        state: EndpointState::Disabled,
        cycle: false,
        pointer: 0,
    };

    pub fn is_disabled(self) -> bool
        ensures { result ≡ tables.is_disabled self }
    {
        self.state == EndpointState::Disabled
    }
}

#[derive(Clone, Copy, Debug, PartialEq, Eq)]
pub enum SlotState {
    Free,
    Enabled,
    Default,
    Addressed,
    Configured,
}

impl SlotState {
    pub fn number(self) -> u8
        ensures { result ≡ tables.slot_number self }
    {
        self as u8
    }

    pub fn is_free(self) -> bool
        ensures { result ≡ eqb (tables.slot_number self) 0 }
    {
        self == SlotState::Free
    }
}

// A slot: its state, the base of its device context, the address of its DCBAA entry.
#[derive(Clone, Copy, Debug, PartialEq, Eq)]
pub struct Slot {
    pub state: SlotState,
    pub base: u64,
    pub entry: u64,
}

impl Slot {
    pub const FREE: Slot = Slot {
        state: SlotState::Free,
        base: 0,
        entry: 0,
    };

    pub fn is_free(self) -> bool
        ensures { result ≡ tables.is_free self }
    {
        self.state.is_free()
    }
}

// Slots 1 to 16, and a record for each endpoint 1 to 31 of each slot, in one flat run.
#[derive(Clone, Copy)]
pub struct Table {
    pub limit: u64,
    pub length: u64,
    pub dcbaap: u64,
    pub slots: [Slot; 16],
    pub endpoints: [Endpoint; 496],
}

// ---- what comes in

// A place on a transfer ring.
#[derive(Clone, Copy)]
pub struct Dequeue {
    pub pointer: u64,
    pub cycle: bool,
}

// What a look at the transfer ring reports: whether it found a TRB, and the place. A place without a look counts as one that found none.
#[derive(Clone, Copy)]
pub struct Look {
    pub found: bool,
    pub pointer: u64,
    pub cycle: bool,
}

impl From<Dequeue> for Look {
    ghost from_gives = { λ d l. l ≡ unlooked d };

    fn from(d: Dequeue) -> Look {
        Look {
            found: false,
            pointer: d.pointer,
            cycle: d.cycle,
        }
    }
}

// The nine inputs of an endpoint.
#[derive(Clone, Copy)]
pub enum Input {
    Doorbell(Look),
    Stop,
    Reset,
    SetDequeue(Dequeue),
    Terminate,
    Ok(Look),
    Stall(Option<Dequeue>),
    TransactionError(Option<Dequeue>),
    TrbError,
}

// ---- the steps

// An entry of the table of steps that is no refusal.
#[derive(Clone, Copy)]
pub struct Row {
    // The answer: 0 or 1. The answer's codes, and the bytes that memory holds, are the scope's numbers.
    pub code: u8,
    // The state after the step where no TRB is found, if it changes.
    pub next: Option<EndpointState>,
    // What is stored as the context's state byte, if anything is.
    pub byte: Option<u8>,
    // The place is taken, if one is given.
    pub takes: bool,
    // A TRB found there gives In flight, and submit.
    pub looks: bool,
    // Pointer and cycle are stored in the context.
    pub saves: bool,
    // The transfer that is out is cancelled.
    pub cancels: bool,
}

// ---- what goes out

// Why a call is refused, with its code.
#[derive(Clone, Copy, Debug, PartialEq, Eq)]
pub enum Refusal {
    NoFreeSlot = 9,
    NoSlot = 11,
    NoEndpoint = 12,
    EndpointType = 17,
    State = 19,
    // A range of the call does not lie in memory.
    Outside = 193,
    // The lent memory is not the table's.
    OtherMemory = 194,
    Unaligned = 195,
    // A host event that the endpoint's state does not take.
    Stray = 196,
    // A slot limit, or a length of memory.
    TooLarge = 197,
    Malformed = 198,
}

impl Refusal {
    pub fn code(self) -> u64
        ensures { result ≡ code_of self }
    {
        self as u64
    }
}

// The answer's eight numbers. Bit i of a mask is endpoint i; submit and cancel are 0 or 1.
#[derive(Clone, Copy, Debug, PartialEq, Eq)]
pub struct Answer {
    pub code: u64,
    pub slot: u64,
    pub launched: u64,
    pub terminated: u64,
    pub port: u64,
    pub stored: u64,
    pub submit: u64,
    pub cancel: u64,
}

// What a call gives back: the table, and the answer.
#[derive(Clone, Copy)]
pub struct Outcome {
    pub table: Table,
    pub answer: Answer,
}
