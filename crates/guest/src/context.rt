// Contexts of 32 bytes, slot's or endpoint's. Each writer is lent the part of memory that starts at the context.
ghost use Rattle.std.specs.Prelude.{◌≡◌, ◌+◌, ◌≤◌, [], ◌∷◌, length};
ghost use Rattle.guest.specs.Bytes.{bytes};
ghost use Rattle.guest.specs.Prog.{block, splice};

use crate::words;

// The context at an index, read whole.
pub fn read_context(mem: &[u8], at: usize) -> [u8; 32]
    requires { at + 32 ≤ length mem.now }
    ensures { result ≡ block mem.now at 32 }
{
    words::load(mem, at)
}

// A context, stored whole at an index.
pub fn store_context(mem: &mut [u8], at: usize, context: [u8; 32])
    requires { at + 32 ≤ length mem.old }
    ensures { mem.new ≡ splice mem.old at context }
{
    words::store(&mut mem[at..], 0, &context);
}

// The state byte of the endpoint context at an index.
pub fn store_state(mem: &mut [u8], at: usize, byte: u8)
    requires { at + 32 ≤ length mem.old }
    ensures { mem.new ≡ splice mem.old at (byte ∷ []) }
{
    words::store_byte(&mut mem[at..], 0, byte);
}

// The dequeue word of the endpoint context at an index: 8 bytes at offset 8.
pub fn store_pointer(mem: &mut [u8], at: usize, word: u64)
    requires { at + 32 ≤ length mem.old }
    ensures { mem.new ≡ splice mem.old (at + 8) (bytes 8 word) }
{
    words::store_u64(&mut mem[at..], 8, word);
}
