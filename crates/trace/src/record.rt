// A record of 32 bytes: its fields, what is due zero, and what it tells.
ghost use Rattle.std.specs.Prelude.{◌≡◌};
ghost use Rattle.trace.specs.Kinds.{number_of, limit_of, NamesKind};
ghost use Rattle.trace.specs.Records.{fields_of, uses_of, zero_unless, clean, contexts_of, place_of, look_of, given_of, reaches, store_of, told, entry_of};

use crate::{Asked, BadRecord, Byte, Call, Contexts, Entry, Reach};
use definition::{Dequeue, Look};

// The record's fields, with the bytes between and after them as numbers.
#[derive(Clone, Copy)]
pub struct Fields {
    // As it stands there, known or not.
    pub kind: u8,
    pub slot: u64,
    pub endpoint: u64,
    pub flag: u32,
    pub gap: u32,
    pub pointer: u64,
    pub value: u64,
    pub rest: u64,
}

// What a record is: a call, or a guest store. docs/TRACE.md numbers them.
#[derive(Clone, Copy)]
pub enum Kind {
    SetLimit,
    SetDcbaap,
    EnableSlot,
    DisableSlot,
    AddressDevice,
    ConfigureEndpoint,
    EvaluateContext,
    ResetDevice,
    ResetAll,
    StopEndpoint,
    ResetEndpoint,
    SetDequeue,
    Doorbell,
    Ok,
    Stall,
    TransactionError,
    TrbError,
    GuestStore,
}

// A kind by its number; an unknown number is an error.
impl TryFrom<u8> for Kind {
    type Error = BadRecord;

    ghost try_from_gives = { NamesKind };

    fn try_from(number: u8) -> Result<Kind, BadRecord> {
        match number {
            1 => Ok(Kind::SetLimit),
            2 => Ok(Kind::SetDcbaap),
            3 => Ok(Kind::EnableSlot),
            4 => Ok(Kind::DisableSlot),
            5 => Ok(Kind::AddressDevice),
            6 => Ok(Kind::ConfigureEndpoint),
            7 => Ok(Kind::EvaluateContext),
            8 => Ok(Kind::ResetDevice),
            9 => Ok(Kind::ResetAll),
            10 => Ok(Kind::StopEndpoint),
            11 => Ok(Kind::ResetEndpoint),
            12 => Ok(Kind::SetDequeue),
            13 => Ok(Kind::Doorbell),
            14 => Ok(Kind::Ok),
            15 => Ok(Kind::Stall),
            16 => Ok(Kind::TransactionError),
            17 => Ok(Kind::TrbError),
            18 => Ok(Kind::GuestStore),
            _ => Err(BadRecord),
        }
    }
}

// ---- which fields a kind uses

// Which bits of the flag are used: bit 0 is the low one, and both are bits 0 and 1.
#[derive(Clone, Copy)]
pub enum Bits {
    Neither,
    Low,
    Both,
}

impl Bits {
    // A flag with no other bit set is below it.
    fn limit(self) -> u32
        ensures { result ≡ limit_of self }
    {
        match self {
            Bits::Neither => 1,
            Bits::Low => 2,
            Bits::Both => 4,
        }
    }
}

// Which fields a kind uses.
#[derive(Clone, Copy)]
pub struct Uses {
    pub slot: bool,
    pub endpoint: bool,
    pub bits: Bits,
    pub pointer: bool,
    pub value: bool,
}

const NOTHING: Uses = Uses {
    slot: false,
    endpoint: false,
    bits: Bits::Neither,
    pointer: false,
    value: false,
};

const VALUE: Uses = Uses {
    value: true,
    ..NOTHING
};

const POINTER: Uses = Uses {
    pointer: true,
    ..NOTHING
};

const SLOT: Uses = Uses {
    slot: true,
    ..NOTHING
};

const CONTEXTS: Uses = Uses {
    pointer: true,
    ..SLOT
};

const FLAGGED: Uses = Uses {
    bits: Bits::Low,
    ..CONTEXTS
};

const ENDPOINT: Uses = Uses {
    endpoint: true,
    ..SLOT
};

const PLACE: Uses = Uses {
    bits: Bits::Low,
    pointer: true,
    ..ENDPOINT
};

const REPORT: Uses = Uses {
    bits: Bits::Both,
    ..PLACE
};

const STORE: Uses = Uses {
    pointer: true,
    ..VALUE
};

impl Kind {
    // The fields that it uses.
    #[tactic(auto, unfolding(crate::specs::Records::uses_of))]
    fn uses(self) -> Uses
        ensures { result ≡ uses_of (number_of self) }
    {
        match self {
            Kind::EnableSlot | Kind::ResetAll => NOTHING,
            Kind::SetLimit => VALUE,
            Kind::SetDcbaap => POINTER,
            Kind::DisableSlot | Kind::ResetDevice => SLOT,
            Kind::EvaluateContext => CONTEXTS,
            Kind::AddressDevice | Kind::ConfigureEndpoint => FLAGGED,
            Kind::StopEndpoint | Kind::ResetEndpoint | Kind::TrbError => ENDPOINT,
            Kind::SetDequeue => PLACE,
            Kind::Doorbell | Kind::Ok | Kind::Stall | Kind::TransactionError => REPORT,
            Kind::GuestStore => STORE,
        }
    }
}

// ---- the layout

// The fields of a record.
#[tactic(auto, unfolding(crate::specs::Records::fields_of))]
fn read(bytes: &[u8; 32]) -> Fields
    ensures { result ≡ fields_of bytes.now }
{
    Fields {
        kind: guest::words::read_byte(bytes, 0),
        slot: u64::from(guest::words::read_byte(bytes, 1)),
        endpoint: u64::from(guest::words::read_byte(bytes, 2)),
        flag: u32::from(guest::words::read_byte(bytes, 3)),
        gap: guest::words::read_u32(bytes, 4),
        pointer: guest::words::read_u64(bytes, 8),
        value: guest::words::read_u64(bytes, 16),
        rest: guest::words::read_u64(bytes, 24),
    }
}

// Zero, where the field is not used.
fn zero_unless(used: bool, x: u64) -> bool
    ensures { result ≡ zero_unless used x }
{
    used || x == 0
}

impl Fields {
    // All that is due zero is zero.
    #[tactic(auto, unfolding(crate::specs::Records::clean))]
    fn is_clean(self, uses: Uses) -> bool
        ensures { result ≡ clean uses self }
    {
        self.gap == 0
            && self.rest == 0
            && zero_unless(uses.slot, self.slot)
            && zero_unless(uses.endpoint, self.endpoint)
            && self.flag < uses.bits.limit()
            && zero_unless(uses.pointer, self.pointer)
            && zero_unless(uses.value, self.value)
    }

    // ---- what the fields mean

    // A command over an input context.
    fn contexts(self) -> Contexts
        ensures { result ≡ contexts_of self }
    {
        Contexts {
            id: self.slot,
            pointer: self.pointer,
            flag: guest::bits::flag(self.flag, 0),
        }
    }

    // A place on a transfer ring.
    fn place(self) -> Dequeue
        ensures { result ≡ place_of self }
    {
        Dequeue {
            pointer: self.pointer,
            cycle: guest::bits::flag(self.flag, 0),
        }
    }

    // A look report.
    fn look(self) -> Look
        ensures { result ≡ look_of self }
    {
        Look {
            found: guest::bits::flag(self.flag, 1),
            pointer: self.pointer,
            cycle: guest::bits::flag(self.flag, 0),
        }
    }

    // The place that a host event brings, where it is given.
    fn given(self) -> Option<Dequeue>
        ensures { result ≡ given_of self }
    {
        if guest::bits::flag(self.flag, 1) {
            Some(self.place())
        } else {
            None
        }
    }

    // A call that reaches an endpoint.
    fn reach(self, asked: Asked) -> Call
        ensures { result ≡ reaches self asked }
    {
        Call::Endpoint(Reach {
            id: self.slot,
            i: self.endpoint,
            asked,
        })
    }

    // A guest store of a byte inside a memory of `length` bytes.
    fn store(self, length: u64) -> Result<Entry, BadRecord>
        ensures { result ≡ store_of length self }
    {
        let value = u8::try_from(self.value).map_err(|_| BadRecord)?;
        if self.pointer >= length {
            return Err(BadRecord);
        }
        Ok(Entry::Store(Byte {
            address: self.pointer,
            value,
        }))
    }

    // What they tell, over a memory of `length` bytes.
    #[tactic(auto, unfolding(crate::specs::Records::told))]
    fn tell(self, kind: Kind, length: u64) -> Result<Entry, BadRecord>
        requires { self.kind ≡ number_of kind }
        ensures { result ≡ told length self }
    {
        Ok(Entry::Call(match kind {
            Kind::SetLimit => Call::SetLimit(self.value),
            Kind::SetDcbaap => Call::SetDcbaap(self.pointer),
            Kind::EnableSlot => Call::EnableSlot,
            Kind::DisableSlot => Call::DisableSlot(self.slot),
            Kind::AddressDevice => Call::AddressDevice(self.contexts()),
            Kind::ConfigureEndpoint => Call::ConfigureEndpoint(self.contexts()),
            Kind::EvaluateContext => Call::EvaluateContext(self.contexts()),
            Kind::ResetDevice => Call::ResetDevice(self.slot),
            Kind::ResetAll => Call::ResetAll,
            Kind::StopEndpoint => self.reach(Asked::Stop),
            Kind::ResetEndpoint => self.reach(Asked::Reset),
            Kind::SetDequeue => self.reach(Asked::SetDequeue(self.place())),
            Kind::Doorbell => self.reach(Asked::Doorbell(self.look())),
            Kind::Ok => self.reach(Asked::Ok(self.look())),
            Kind::Stall => self.reach(Asked::Stall(self.given())),
            Kind::TransactionError => self.reach(Asked::TransactionError(self.given())),
            Kind::TrbError => self.reach(Asked::TrbError),
            Kind::GuestStore => return self.store(length),
        }))
    }
}

// What a record tells, over a memory of `length` bytes.
#[tactic(auto, unfolding(crate::specs::Records::entry_of, crate::specs::Records::told))]
pub fn decode(bytes: &[u8], length: u64) -> Result<Entry, BadRecord>
    ensures { result ≡ entry_of length bytes.now }
{
    let record = <&[u8; 32]>::try_from(bytes).map_err(|_| BadRecord)?;
    let fields = read(record);
    let kind = Kind::try_from(fields.kind)?;
    if !fields.is_clean(kind.uses()) {
        return Err(BadRecord);
    }
    fields.tell(kind, length)
}
