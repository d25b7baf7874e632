// Bytes and words at an index of memory, little-endian.
ghost use Rattle.std.specs.Prelude.{◌≡◌, ◌+◌, ◌≤◌, [], ◌∷◌, length};
ghost use Rattle.guest.specs.Bytes.{number, bytes};
ghost use Rattle.guest.specs.Prog.{block, splice};

// The N bytes at an index.
pub fn load<const N: usize>(mem: &[u8], at: usize) -> [u8; N]
    requires { at + N ≤ length mem.now }
    ensures { result ≡ block mem.now at N }
{
    let mut part = [0u8; N];
    part.copy_from_slice(&mem[at..at + N]);
    part
}

// Bytes, stored at an index.
pub fn store(mem: &mut [u8], at: usize, part: &[u8])
    requires { at + length part.now ≤ length mem.old }
    ensures { mem.new ≡ splice mem.old at part.now }
{
    mem[at..at + part.len()].copy_from_slice(part);
}

// The byte at an index.
pub fn read_byte(mem: &[u8], at: usize) -> u8
    requires { at + 1 ≤ length mem.now }
    ensures { result ≡ number (block mem.now at 1) }
{
    mem[at]
}

// The number in the 4 bytes at an index. (One function for each width: std has no trait of `from_le_bytes`.)
pub fn read_u32(mem: &[u8], at: usize) -> u32
    requires { at + 4 ≤ length mem.now }
    ensures { result ≡ number (block mem.now at 4) }
{
    u32::from_le_bytes(load(mem, at))
}

// The number in the 8 bytes at an index.
pub fn read_u64(mem: &[u8], at: usize) -> u64
    requires { at + 8 ≤ length mem.now }
    ensures { result ≡ number (block mem.now at 8) }
{
    u64::from_le_bytes(load(mem, at))
}

// One byte, stored at an index.
pub fn store_byte(mem: &mut [u8], at: usize, byte: u8)
    requires { at + 1 ≤ length mem.old }
    ensures { mem.new ≡ splice mem.old at (byte ∷ []) }
{
    mem[at] = byte;
}

// A number, stored in the 8 bytes at an index.
pub fn store_u64(mem: &mut [u8], at: usize, x: u64)
    requires { at + 8 ≤ length mem.old }
    ensures { mem.new ≡ splice mem.old at (bytes 8 x) }
{
    store(mem, at, &x.to_le_bytes());
}
