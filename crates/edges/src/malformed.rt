// Every call on a table that is malformed in one place: 198, whatever else is wrong. A heading has the record: its index and its fields.
use definition::{Endpoint, EndpointState, Slot, SlotState};
use std::io;
use std::io::Write;
use tries::attempt::Heading;
use tries::record::Record;
use tries::{attempt, setting};

fn record<W: Write, R: Record>(out: &mut W, at: usize, r: R) -> io::Result<()> {
    let name = R::NAME;
    let [state, a, b] = r.numbers();
    writeln!(out, "{name} {at} {state} {a} {b}")?;
    attempt::every(out, r.put(setting::table(), at), Heading::PLAIN)
}

fn records<W: Write, R: Record>(out: &mut W, rs: &[(usize, R)]) -> io::Result<()> {
    for &(at, r) in rs {
        record(out, at, r)?;
    }
    Ok(())
}

fn slot(at: usize, state: SlotState, base: u64, entry: u64) -> (usize, Slot) {
    (at, Slot { state, base, entry })
}

fn endpoint(at: usize, state: EndpointState, cycle: bool, pointer: u64) -> (usize, Endpoint) {
    let e = Endpoint {
        state,
        cycle,
        pointer,
    };
    (at, e)
}

// Slots without contexts.
pub fn unused<W: Write>(out: &mut W) -> io::Result<()> {
    // A free slot that is not all zero.
    let free = [
        slot(3, SlotState::Free, 1, 0),
        slot(3, SlotState::Free, 0, 1),
        slot(14, SlotState::Free, u64::MAX, 0),
    ];
    records(out, &free)?;
    let of_free = [
        endpoint(93, EndpointState::Waiting, false, 0),
        endpoint(93, EndpointState::Disabled, true, 0),
        endpoint(464, EndpointState::Disabled, false, 16),
    ];
    records(out, &of_free)?;
    // An Enabled slot with a base or an endpoint.
    records(out, &[slot(1, SlotState::Enabled, 1, 272)])?;
    let of_enabled = [
        endpoint(31, EndpointState::Waiting, false, 0),
        endpoint(61, EndpointState::Stopped, false, 3072),
    ];
    records(out, &of_enabled)
}

// Slots with contexts.
pub fn used<W: Write>(out: &mut W) -> io::Result<()> {
    // A slot past Enabled whose 64 bytes lie outside.
    let outside = [
        slot(2, SlotState::Default, 4033, 280),
        slot(15, SlotState::Addressed, 4096, 384),
        slot(0, SlotState::Configured, 4033, 264),
        slot(2, SlotState::Default, 0xffff_ffff_ffff_ffe0, 280),
        slot(2, SlotState::Default, u64::MAX, 280),
    ];
    records(out, &outside)?;
    // A slot past Enabled without endpoint 1; an endpoint whose context lies outside.
    let without = [
        endpoint(62, EndpointState::Disabled, false, 0),
        endpoint(465, EndpointState::Disabled, false, 0),
        endpoint(0, EndpointState::Disabled, false, 0),
        endpoint(466, EndpointState::Waiting, false, 3072),
        endpoint(495, EndpointState::InFlight, false, 3072),
    ];
    records(out, &without)
}

// A disabled endpoint that is not all zero; a pointer that is not aligned.
pub fn endpoints<W: Write>(out: &mut W) -> io::Result<()> {
    let wrong = [
        endpoint(6, EndpointState::Disabled, true, 0),
        endpoint(6, EndpointState::Disabled, false, 16),
        endpoint(0, EndpointState::Waiting, true, 3073),
        endpoint(30, EndpointState::Stopped, true, 3176),
        endpoint(1, EndpointState::InFlight, false, u64::MAX),
    ];
    records(out, &wrong)
}
