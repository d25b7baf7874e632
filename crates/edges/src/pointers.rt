// Pointers at the edges of memory: of an input context, a DCBAA entry, a device context, a transfer ring.
use calls::{Call, Try};
use definition::{Slot, SlotState};
use std::io;
use std::io::Write;
use tries::record::Record;
use tries::setting::{Guest, Setting};
use tries::{attempt, setting};

// ---- input contexts

fn input<W: Write>(out: &mut W, guest: Guest, x: Try) -> io::Result<()> {
    let s = Setting {
        guest,
        ..Setting::default()
    };
    attempt::call(out, s, x)
}

// This call, with each pointer.
fn at<W: Write>(out: &mut W, g: Guest, x: Try) -> io::Result<()> {
    for pointer in [
        0,
        2048,
        4000,
        4001,
        4032,
        4033,
        4096,
        0xffff_ffff_ffff_fffc,
        0xffff_ffff_ffff_ffe0,
    ] {
        input(out, g, Try { pointer, ..x })?;
    }
    Ok(())
}

// Each call with an input context, in each slot state.
fn all<W: Write>(out: &mut W, flags: u64, kind: u64) -> io::Result<()> {
    let g = Guest {
        flags,
        kind,
        ..Guest::PLAIN
    };
    for (call, id, flag) in [
        (Call::AddressDevice, 2, false),
        (Call::AddressDevice, 2, true),
        (Call::AddressDevice, 3, false),
        (Call::AddressDevice, 3, true),
        (Call::ConfigureEndpoint, 1, false),
        (Call::ConfigureEndpoint, 1, true),
        (Call::ConfigureEndpoint, 2, false),
        (Call::ConfigureEndpoint, 16, false),
        (Call::EvaluateContext, 2, false),
    ] {
        let x = Try {
            call,
            id,
            i: 0,
            pointer: 0,
            flag,
        };
        at(out, g, x)?;
    }
    Ok(())
}

// A type of endpoint 1, with its flag set.
fn kind<W: Write>(out: &mut W, kind: u64) -> io::Result<()> {
    let g = Guest {
        flags: 0x2_0000_0000,
        kind,
        ..Guest::PLAIN
    };
    for (call, id) in [
        (Call::AddressDevice, 2),
        (Call::ConfigureEndpoint, 1),
        (Call::EvaluateContext, 3),
    ] {
        let x = Try {
            call,
            id,
            i: 0,
            pointer: 2048,
            flag: false,
        };
        input(out, g, x)?;
    }
    Ok(())
}

fn kinds<W: Write>(out: &mut W) -> io::Result<()> {
    writeln!(out, "types")?;
    for n in [
        0,
        0x08_0000_0000,
        0x10_0000_0000,
        0x18_0000_0000,
        0x20_0000_0000,
        0x28_0000_0000,
        0x30_0000_0000,
        0x38_0000_0000,
    ] {
        kind(out, n)?;
    }
    Ok(())
}

pub fn inputs<W: Write>(out: &mut W) -> io::Result<()> {
    for (heading, flags, kind) in [
        ("no flags", 0, 0),
        ("first flag", 0x2_0000_0000, 0x20_0000_0000),
        ("last flag", 0x8000_0000_0000_0000, 0x20_0000_0000),
    ] {
        writeln!(out, "{heading}")?;
        all(out, flags, kind)?;
    }
    kinds(out)
}

// ---- DCBAA entries and device contexts

// Address Device, on slot 2.
const ADDRESS: Try = Try {
    call: Call::AddressDevice,
    id: 2,
    i: 0,
    pointer: 2048,
    flag: false,
};

fn base<W: Write>(out: &mut W, base: u64) -> io::Result<()> {
    let g = Guest {
        base,
        ..Guest::PLAIN
    };
    for flag in [false, true] {
        input(out, g, Try { flag, ..ADDRESS })?;
    }
    Ok(())
}

fn entry<W: Write>(out: &mut W, entry: u64) -> io::Result<()> {
    let slot = Slot {
        state: SlotState::Enabled,
        base: 0,
        entry,
    };
    let s = Setting {
        table: slot.put(setting::table(), 1),
        ..Setting::default()
    };
    attempt::call(out, s, ADDRESS)
}

fn entries<W: Write>(out: &mut W) -> io::Result<()> {
    writeln!(out, "entries")?;
    for n in [
        0,
        4032,
        4033,
        4088,
        4089,
        4096,
        0xffff_ffff_ffff_fffc,
        0xffff_ffff_ffff_ffe0,
        u64::MAX,
    ] {
        entry(out, n)?;
    }
    Ok(())
}

pub fn bases<W: Write>(out: &mut W) -> io::Result<()> {
    writeln!(out, "bases")?;
    for n in [
        0,
        4032,
        4033,
        4096,
        0xffff_ffff_ffff_fffc,
        0xffff_ffff_ffff_ffe0,
        u64::MAX,
    ] {
        base(out, n)?;
    }
    entries(out)
}

// ---- transfer rings

fn places<W: Write>(out: &mut W, call: Call, i: u64) -> io::Result<()> {
    for pointer in [
        0,
        4032,
        4033,
        4096,
        0xffff_ffff_ffff_fff0,
        0xffff_ffff_ffff_fffc,
        0xffff_ffff_ffff_ffe0,
    ] {
        let x = Try {
            call,
            id: 1,
            i,
            pointer,
            flag: true,
        };
        attempt::plain(out, x)?;
    }
    Ok(())
}

pub fn rings<W: Write>(out: &mut W) -> io::Result<()> {
    writeln!(out, "rings")?;
    for call in [
        Call::SetDequeue,
        Call::Doorbell,
        Call::HostOk,
        Call::HostStall,
        Call::HostTransactionError,
    ] {
        // In each of the six resting states.
        for i in 1..=6 {
            places(out, call, i)?;
        }
    }
    Ok(())
}
