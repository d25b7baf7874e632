// The lines at a session's end: the table and the memory. Each is written by itself, and none needs the heap.
#![tactic(auto)]

ghost use Rattle.std.specs.Prelude.{◌≡◌, ◌↔◌, All, IsTrue, IfSome, OnOk};
ghost use Rattle.std.specs.Fmt.{with_newline};
ghost use Rattle.std.specs.Io.KnownBytes.{Appends};

use definition::{Endpoint, Slot, Table};
use std::fmt::{InlineText, Write as _};
use std::io::Write;
use std::{fmt, io};

// A value as a line, by one `write_all`: whoever gave the records may wait for their answers.
// 128 bytes hold each line of this crate and of `differential`: a number has 20 digits at most, so the longest, a row of memory, has 93 bytes
// at most, and 78 as it is. A longer text would be an error, with nothing written.
pub fn line<W: Write, D: fmt::Display + Drop>(out: &mut W, shown: D) -> io::Result<()>
    ensures { OnOk result (IfSome (with_newline (D.output shown)) (Appends (W.contents out.old) (W.contents out.new))) }
{
    let mut kept = InlineText::<128>::new();
    writeln!(kept, "{shown}")?;
    out.write_all(kept.as_str().as_bytes())
}

// ---- the table

// `slot ID STATE BASE ENTRY`, where the slot is in use.
fn slot<W: Write>(out: &mut W, id: usize, s: Slot) -> io::Result<()> {
    if !s.is_free() {
        let number = s.state.number();
        line(
            out,
            format_args!("slot {id} {number} {} {}", s.base, s.entry),
        )?;
    }
    Ok(())
}

// `endpoint SLOT ID STATE CYCLE POINTER`, where the endpoint is enabled.
fn endpoint<W: Write>(out: &mut W, slot: usize, id: usize, e: Endpoint) -> io::Result<()> {
    if !e.is_disabled() {
        let number = e.state.number();
        let cycle = u8::from(e.cycle);
        line(
            out,
            format_args!("endpoint {slot} {id} {number} {cycle} {}", e.pointer),
        )?;
    }
    Ok(())
}

fn slots<W: Write>(out: &mut W, t: Table) -> io::Result<()> {
    for (i, s) in t.slots.iter().enumerate() {
        slot(out, i + 1, *s)?;
    }
    Ok(())
}

// Each slot has 31 endpoints.
fn endpoints<W: Write>(out: &mut W, t: Table) -> io::Result<()> {
    for (k, e) in t.endpoints.iter().enumerate() {
        endpoint(out, k / 31 + 1, k % 31 + 1, *e)?;
    }
    Ok(())
}

// ---- the memory

// The bytes are all zero.
pub fn zero(bytes: &[u8]) -> bool
    ensures { IsTrue result ↔ All (λ b. b ≡ 0) bytes.now }
{
    bytes.iter().all(|b| *b == 0)
}

// A row's bytes in hexadecimal, two digits each: eight bytes are one number, the first of them in front.
#[derive(Drop)]
struct Hex<'a>(&'a [u8; 32]);

impl fmt::Display for Hex<'_> {
    fn fmt<W: fmt::Write>(&self, f: &mut fmt::Formatter<W>) -> fmt::Result {
        let bytes = self.0;
        for word in bytes.as_chunks().0 {
            write!(f, "{:016x}", u64::from_be_bytes(*word))?;
        }
        Ok(())
    }
}

// `memory ADDRESS HEX`, for each 32 bytes that are not all zero.
fn memory<W: Write>(out: &mut W, mem: &[u8; 65536]) -> io::Result<()> {
    for (k, row) in mem.as_chunks::<32>().0.iter().enumerate() {
        if !zero(row) {
            line(out, format_args!("memory {} {}", 32 * k, Hex(row)))?;
        }
    }
    Ok(())
}

// The slots in use, the enabled endpoints, the rows of memory that are not all zero.
pub fn end<W: Write>(out: &mut W, t: Table, mem: &[u8; 65536]) -> io::Result<()> {
    slots(out, t)?;
    endpoints(out, t)?;
    memory(out, mem)
}
