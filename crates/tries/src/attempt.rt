// One call, tried and written down: the call with its numbers, the answer's eight numbers, and the checksums after the call. Each is given a table, and a
// memory that it makes and fills.
use crate::setting;
use crate::setting::Setting;
use crate::sums::Sums;
use calls::{Call, Shown, Try};
use definition::{Outcome, Table};
use std::io::Write;
use std::{fmt, io};

fn run<W: Write>(out: &mut W, t: Table, mem: &mut [u8], x: Try) -> io::Result<()> {
    let before = Sums::of(&t, mem);
    let Outcome { table, answer } = calls::make(t, mem, x);
    let after = Sums::of(&table, mem);
    let change = if before == after { "same" } else { "changed" };
    writeln!(out, "{x} | {} | {after} {change}", Shown(answer))
}

// Nothing is tried where more than 4097 bytes are to be lent.
pub fn call<W: Write>(out: &mut W, s: Setting, x: Try) -> io::Result<()> {
    let mut mem = setting::memory(s.guest);
    match mem.get_mut(..s.lent) {
        Some(lent) => run(out, s.table, lent, x),
        None => Ok(()),
    }
}

// A call on the well formed table and its own memory.
pub fn plain<W: Write>(out: &mut W, x: Try) -> io::Result<()> {
    call(out, Setting::default(), x)
}

// What the calls under a heading share: how many bytes they are lent, and the ids.
#[derive(Clone, Copy)]
pub struct Heading {
    pub lent: usize,
    pub id: u64,
    pub i: u64,
}

impl Heading {
    // All of the memory, and an endpoint that is in use.
    pub const PLAIN: Heading = Heading {
        lent: 4096,
        id: 1,
        i: 2,
    };
}

impl fmt::Display for Heading {
    fn fmt<W: fmt::Write>(&self, f: &mut fmt::Formatter<W>) -> fmt::Result {
        write!(f, "every {} {} {}", self.lent, self.id, self.i)
    }
}

// Every call, on this table, under its heading. All bring the same pointer.
pub fn every<W: Write>(out: &mut W, table: Table, h: Heading) -> io::Result<()> {
    writeln!(out, "{h}")?;
    let s = Setting {
        table,
        lent: h.lent,
        ..Setting::default()
    };
    for c in Call::ALL {
        call(
            out,
            s,
            Try {
                call: c,
                id: h.id,
                i: h.i,
                pointer: 2048,
                flag: false,
            },
        )?;
    }
    Ok(())
}
