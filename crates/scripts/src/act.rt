// What a case is made of, and how its calls and places are written.
use definition::Answer;
use std::fmt;

// The slot limit, and the base in slot 1's DCBAA entry.
#[derive(Clone, Copy)]
pub struct Setting {
    pub limit: u64,
    pub base: u64,
}

impl fmt::Display for Setting {
    fn fmt<W: fmt::Write>(&self, f: &mut fmt::Formatter<W>) -> fmt::Result {
        let Setting { limit, base } = *self;
        write!(f, "limit {limit} base {base}")
    }
}

#[derive(Clone, Copy)]
pub struct Script<'a> {
    pub setting: Setting,
    pub acts: &'a [Act],
}

#[derive(Clone, Copy)]
pub enum Act {
    // A guest store at an address: of a byte, and of eight.
    Byte(usize, u8),
    Word(usize, u64),
    // A call that leads to others, and is not shown.
    Call(Call),
    // A case's call, and the answer that the document expects.
    Try(u64, Call, Answer),
    // A case's look, and the number that the document expects.
    See(u64, Place, u64),
}

#[derive(Clone, Copy)]
pub enum Call {
    EnableSlot,
    AddressDevice { id: u64, pointer: u64, bsr: bool },
    ConfigureEndpoint { id: u64, pointer: u64, dc: bool },
    StopEndpoint { id: u64, endpoint: u64 },
    ResetAll,
}

// The name, a slot, a pointer or an endpoint, and a flag; 1, 0 and 0 where the call has none.
impl fmt::Display for Call {
    fn fmt<W: fmt::Write>(&self, f: &mut fmt::Formatter<W>) -> fmt::Result {
        match *self {
            Call::EnableSlot => f.write_str("enable-slot 1 0 0"),
            Call::AddressDevice { id, pointer, bsr } => {
                write!(f, "address-device {id} {pointer} {}", u8::from(bsr))
            }
            Call::ConfigureEndpoint { id, pointer, dc } => {
                write!(f, "configure-endpoint {id} {pointer} {}", u8::from(dc))
            }
            Call::StopEndpoint { id, endpoint } => write!(f, "stop-endpoint {id} {endpoint} 0"),
            Call::ResetAll => f.write_str("reset-all 1 0 0"),
        }
    }
}

// A byte and eight bytes of an address, and pointer and cycle of endpoint 1 of slot 1.
#[derive(Clone, Copy)]
pub enum Place {
    Byte(usize),
    Word(usize),
    Pointer,
    Cycle,
}

impl fmt::Display for Place {
    fn fmt<W: fmt::Write>(&self, f: &mut fmt::Formatter<W>) -> fmt::Result {
        match *self {
            Place::Byte(at) => write!(f, "byte {at}"),
            Place::Word(at) => write!(f, "eight bytes {at}"),
            Place::Pointer => f.write_str("endpoint 1 pointer"),
            Place::Cycle => f.write_str("endpoint 1 cycle"),
        }
    }
}
