// Where the contexts of an added endpoint lie: block i + 1 of the input context, and block i of the device context.
ghost use Rattle.std.specs.Prelude.{◌≡◌, ◌<◌};
ghost use Rattle.contexts.specs.Ranges.{both_inside};

use guest::address::inside;

// Both contexts of endpoint i lie wholly in a memory of `length` bytes.
pub fn both_inside(length: u64, pointer: u64, base: u64, i: u64) -> bool
    requires { i < 32 }
    ensures { result ≡ both_inside length pointer base i }
{
    let input = guest::address::plus(pointer, 32 * (i + 1));
    let device = guest::address::plus(base, 32 * i);
    inside(length, input, 32) && inside(length, device, 32)
}
