// Bad input to every call of the slot manager: ids, limits, pointers, tables and memory lengths at their edges.
// Under a heading, a line has: the call and its numbers; the answer's eight numbers; checksums of the table and of memory after the call, and
// whether they are those before it.
// The file stdout was not made by a run: a script that follows the scope document, tests/make_edges.py, made it.
#![tactic(auto)]

mod malformed;
mod pointers;

use calls::{Call, Shown, Try};
use definition::{Outcome, Table};
use std::io;
use std::io::{BufWriter, Write};
use tries::attempt::Heading;
use tries::setting::Setting;
use tries::{attempt, setting, sums};

// ---- ids and limits

// Slot ids, or limits, or values of DCBAAP.
fn first<W: Write>(out: &mut W, call: Call) -> io::Result<()> {
    for id in [0, 1, 16, 17, 31, 32, 255, 0x1_0000_0000, u64::MAX] {
        let x = Try {
            call,
            id,
            i: 1,
            pointer: 2048,
            flag: true,
        };
        attempt::plain(out, x)?;
    }
    Ok(())
}

// Endpoint ids in slot 1, and both ids wrong.
fn second<W: Write>(out: &mut W, call: Call) -> io::Result<()> {
    for (id, i) in [
        (1, 0),
        (1, 16),
        (1, 17),
        (1, 31),
        (1, 32),
        (1, 255),
        (1, 0x1_0000_0000),
        (1, u64::MAX),
        (u64::MAX, u64::MAX),
    ] {
        let x = Try {
            call,
            id,
            i,
            pointer: 2048,
            flag: true,
        };
        attempt::plain(out, x)?;
    }
    Ok(())
}

// A call that reaches an endpoint is given both.
fn every_id<W: Write>(out: &mut W) -> io::Result<()> {
    writeln!(out, "ids")?;
    for call in Call::ALL {
        if !matches!(call, Call::EnableSlot | Call::ResetAll) {
            first(out, call)?;
        }
        if call >= Call::StopEndpoint {
            second(out, call)?;
        }
    }
    Ok(())
}

// ---- Enable Slot

fn enables<W: Write>(out: &mut W) -> io::Result<()> {
    writeln!(out, "enable")?;
    for limit in [0, 1, 3, 4, 16, 17] {
        let s = Setting {
            table: Table {
                limit,
                ..setting::table()
            },
            ..Setting::default()
        };
        let x = Try {
            call: Call::EnableSlot,
            id: limit,
            i: 0,
            pointer: 0,
            flag: false,
        };
        attempt::call(out, s, x)?;
    }
    Ok(())
}

// ---- making a table

fn makes<W: Write>(out: &mut W) -> io::Result<()> {
    for length in [
        0,
        1,
        4096,
        1_073_741_823,
        1_073_741_824,
        1_073_741_825,
        0x1_0000_0000,
        u64::MAX,
    ] {
        let Outcome { table, answer } = slot_manager::make_table(length);
        let sum = sums::table(&table);
        writeln!(out, "make-table {length} | {} | {sum}", Shown(answer))?;
    }
    Ok(())
}

// ---- limits and lengths

// Tables with these limits and lengths, and bytes and ids for the calls on them.
fn numbers<W: Write>(out: &mut W, limit: u64, length: u64, h: Heading) -> io::Result<()> {
    let t = Table {
        limit,
        length,
        ..setting::table()
    };
    attempt::every(out, t, h)
}

// A byte short, a byte long, and none; then a malformed table too, for which 198 comes first; then a length in range that is not the memory's.
fn lengths<W: Write>(out: &mut W) -> io::Result<()> {
    for (limit, length, lent, id, i) in [
        (4, 4096, 4095, 1, 2),
        (4, 4096, 4095, 0, 0),
        (4, 4096, 4097, 1, 2),
        (4, 4096, 4097, u64::MAX, u64::MAX),
        (4, 4096, 0, 1, 2),
        (17, 4096, 4095, 0, 0),
        (4, 1_073_741_824, 4096, 1, 2),
    ] {
        numbers(out, limit, length, Heading { lent, id, i })?;
    }
    Ok(())
}

// A limit above 16; a length above 1,073,741,824, or so small that slot 16's contexts end outside.
fn out_of_range<W: Write>(out: &mut W) -> io::Result<()> {
    writeln!(out, "limits and lengths")?;
    for (limit, length) in [
        (17, 4096),
        (u64::MAX, 4096),
        (4, 1_073_741_825),
        (4, u64::MAX),
        (4, 4095),
    ] {
        numbers(out, limit, length, Heading::PLAIN)?;
    }
    Ok(())
}

fn main(rt: HostRuntime) -> io::Result<()> {
    let mut out = BufWriter::new(rt.alloc(), io::writer(&rt))?;
    every_id(&mut out)?;
    enables(&mut out)?;
    makes(&mut out)?;
    pointers::inputs(&mut out)?;
    pointers::bases(&mut out)?;
    pointers::rings(&mut out)?;
    lengths(&mut out)?;
    out_of_range(&mut out)?;
    malformed::unused(&mut out)?;
    malformed::used(&mut out)?;
    malformed::endpoints(&mut out)?;
    out.flush()
}
