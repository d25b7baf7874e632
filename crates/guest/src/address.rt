// Guest addresses. This is the one place where an address becomes an index of the lent memory.
ghost use Rattle.std.specs.Prelude.{◌≡◌};
ghost use Rattle.guest.specs.Bytes.{◌⊕◌, inside, located};

// An address and an offset. The sum wraps.
pub fn plus(address: u64, offset: u64) -> u64
    ensures { result ≡ address ⊕ offset }
{
    std::num::wrapping_add_u64(address, offset)
}

// The index of an address that is known to lie in memory.
pub fn index(address: u64) -> usize
    ensures { result ≡ address }
{
    address as usize
}

// The `count` bytes at an address lie wholly in a memory of `length` bytes.
pub fn inside(length: u64, address: u64, count: u64) -> bool
    ensures { result ≡ inside length address count }
{
    count <= length && address <= length - count
}

// The index of `count` bytes at an address, in a memory of `length` bytes.
pub fn locate(address: u64, count: u64, length: u64) -> Option<usize>
    ensures { result ≡ located length address count }
{
    inside(length, address, count).then(|| index(address))
}
