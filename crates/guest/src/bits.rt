// The bits of a number, with contracts in plain arithmetic.
ghost use Rattle.std.specs.Prelude.{◌≡◌, ◌<◌};
ghost use Rattle.guest.specs.Bytes.{bit, pointer_of, cycle_of, type_of, slot_state_byte};

// The pointer of a dequeue word: its low four bits cleared.
pub fn pointer_of(word: u64) -> u64
    ensures { result ≡ pointer_of word }
{
    word & !0xf
}

// The cycle of a dequeue word: bit 0.
pub fn cycle_of(word: u64) -> bool
    ensures { result ≡ cycle_of word }
{
    word & 1 == 1
}

// Flag i of a word of flags.
pub fn flag(flags: u32, i: u32) -> bool
    requires { i < 32 }
    ensures { result ≡ bit flags i }
{
    (flags >> i) & 1 == 1
}

// The endpoint type: bits 3 to 5 of its byte.
pub fn type_of(byte: u8) -> u8
    ensures { result ≡ type_of byte }
{
    (byte >> 3) & 7
}

// A slot state as its byte has it.
pub fn slot_state_byte(state: u8) -> u8
    requires { state < 32 }
    ensures { result ≡ slot_state_byte state }
{
    state << 3
}
