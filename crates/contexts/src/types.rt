// The types of the endpoints that an input context adds.
ghost use Rattle.std.specs.Prelude.{◌≡◌, ◌<◌};
ghost use Rattle.definition.specs.Commands.{usb_types};
ghost use Rattle.contexts.specs.Checks.{Judges, ChecksTypes};

use definition::Refusal;

// An endpoint type (xHCI 6.2.3) that is accepted: any but 0, not valid, and 1 and 5, isochronous.
fn accepted(kind: u8) -> bool
    ensures { result ≡ usb_types kind }
{
    !matches!(kind, 0 | 1 | 5)
}

// The type of endpoint i, whose input context is block i + 1.
fn check_type(mem: &[u8], pointer: u64, i: u64) -> Result<(), Refusal>
    requires { i < 32 }
    ensures { Judges pointer i mem.now result }
{
    let address = guest::address::plus(pointer, 32 * (i + 1) + 4);
    let at = guest::address::locate(address, 1, mem.len() as u64).ok_or(Refusal::Outside)?;
    let byte = guest::words::read_byte(mem, at);
    if !accepted(guest::bits::type_of(byte)) {
        return Err(Refusal::EndpointType);
    }
    Ok(())
}

// The types of all added endpoints, ascending: the add flags, once all are accepted.
pub fn check_types(mem: &[u8], pointer: u64, adds: u32) -> Result<u32, Refusal>
    ensures { ChecksTypes pointer adds mem.now result }
{
    for i in 1..32 {
        if guest::bits::flag(adds, i) {
            check_type(mem, pointer, u64::from(i))?;
        }
    }
    Ok(adds)
}
