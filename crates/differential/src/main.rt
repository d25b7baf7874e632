// Recorded sessions, replayed: what the oracle prints for them (oracle/README.md), from standard input.
// A record of 32 zero bytes begins a new session: a fresh table and 65,536 zero bytes. Sessions end with the table and the memory.
#![tactic(auto)]

ghost use Rattle.std.specs.Prelude.{◌≤◌, length};

use definition::Table;
use std::io;
use std::io::Write;

fn fresh() -> Table {
    slot_manager::make_table(65536).table
}

// How many bytes of records come before the beginning of a session, or before their end.
fn session_length(records: &[u8]) -> usize
    ensures { result ≤ length records.now }
{
    let mut rows = records.chunks_exact(32);
    match rows.position(lines::zero) {
        Some(k) => 32 * k,
        None => records.len(),
    }
}

// At most 2,048 records of one session, and their answers as lines. Each may be a call, with eight numbers for an answer.
// It gives the table that they leave, or nothing where the run ended.
fn play<W: Write>(
    out: &mut W,
    t: Table,
    mem: &mut [u8; 65536],
    records: &[u8],
) -> io::Result<Option<Table>> {
    let mut answers = [0u64; 16384];
    let mut text = [0u8; 65536];
    let ran = match session::run(t, mem, records, &mut answers) {
        Ok(ran) => ran,
        Err(refused) => {
            lines::line(out, format_args!("refused {}", u64::from(refused)))?;
            return Ok(None);
        }
    };
    player::show(out, &mut text, &answers, ran.answered)?;
    if ran.bad {
        out.write_all(b"bad record\n")?;
        return Ok(None);
    }
    Ok(Some(ran.table))
}

// Some records, the first of which go on with the session. It gives the table that they leave, or nothing where the run ended.
fn feed<W: Write>(
    out: &mut W,
    t: Table,
    mem: &mut [u8; 65536],
    records: &[u8],
) -> io::Result<Option<Table>> {
    let mut table = t;
    let mut rest = records;
    loop {
        let (session, others) = rest.split_at(session_length(rest));
        let Some(left) = play(out, table, mem, session)? else {
            return Ok(None);
        };
        let Some(next) = others.get(32..) else {
            return Ok(Some(left));
        };
        lines::end(out, left, mem)?;
        mem.fill(0);
        table = fresh();
        rest = next;
    }
}

fn main(rt: HostRuntime) -> io::Result<()> {
    let mut input = rt.stdin();
    let mut out = io::writer(&rt);
    // The input is read in parts of 2,048 records.
    let mut records = [0u8; 65536];
    let mut mem = [0u8; 65536];
    let mut t = fresh();
    // A proved loop has to end: no run comes to the last turn.
    for _ in 0..u64::MAX {
        let got = player::read_full(&mut input, &mut records)?;
        let Some(left) = feed(&mut out, t, &mut mem, &records[..got])? else {
            return Ok(());
        };
        t = left;
        if got < records.len() {
            return lines::end(&mut out, t, &mem);
        }
    }
    Ok(())
}
