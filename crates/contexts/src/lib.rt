// The input context of a command (xHCI 6.2.5): the endpoints that it adds, their types, and where their contexts lie.
// Nothing here stores. `pointer` is the input context pointer, and an address that wraps is judged by where it comes out.
#![tactic(auto)]

mod ranges;
mod types;

ghost use Rattle.std.specs.Prelude.{◌≡◌};
ghost use Rattle.contexts.specs.Checks.{Checks};
ghost use Rattle.contexts.specs.Ranges.{ranges_inside};

use definition::Refusal;

// The context check: the add flags, and the type of each endpoint that they add. Flag 0 checks nothing. The first failure decides.
pub fn context_check(mem: &[u8], pointer: u64) -> Result<u32, Refusal>
    ensures { Checks pointer mem.now result }
{
    let address = guest::address::plus(pointer, 4);
    let at = guest::address::locate(address, 4, mem.len() as u64).ok_or(Refusal::Outside)?;
    let adds = guest::words::read_u32(mem, at);
    types::check_types(mem, pointer, adds)
}

// Both contexts of every added endpoint from 2 on lie in a memory of `length` bytes: the one that is copied, and where it goes.
pub fn ranges_inside(length: u64, pointer: u64, base: u64, adds: u32) -> bool
    ensures { result ≡ ranges_inside length pointer base adds }
{
    (2..32).all(|i| !guest::bits::flag(adds, i)
        || ranges::both_inside(length, pointer, base, u64::from(i)))
}
