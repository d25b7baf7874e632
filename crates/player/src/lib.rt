// A trace, read from an input and replayed from a fresh table and 65,536 zero bytes. Each call's answer is a line of the output.
// The records are read in parts of 65,536 bytes, and the lines of a part are written together.
#![tactic(auto)]

ghost use Rattle.std.specs.Prelude.{◌+◌, ◌*◌, ◌≤◌, length, IfOk};
ghost use Rattle.std.specs.ControlFlow.{MatchControlFlow};
ghost use Rattle.formed.specs.Promises.{Ready};
ghost use Rattle.io.specs.Counts.{IsPrefixLen};
ghost use Rattle.player.specs.Lines.{PutsNumber, PutsLine};

use definition::Table;
use std::io::{Read, Write};
use std::ops::ControlFlow;

// A number's decimal digits go to the start of `part`. It answers how many there are.
// Not by `write!`: std's writer over a slice promises how many bytes it took, and not which.
pub fn put_number(part: &mut [u8], n: u64) -> usize
    requires { 20 ≤ length part.old }
    ensures { PutsNumber n part.old result part.new }
{
    let mut digits = [0u8; 20];
    let count = io::decimal(n, &mut digits);
    part[..count].copy_from_slice(&digits[..count]);
    count
}

// The first eight numbers go to the start of `part`, as a line. It answers how many bytes the line has.
fn put_line(part: &mut [u8], numbers: &[u64]) -> usize
    requires room { 168 ≤ length part.old }
    requires eight { 8 ≤ length numbers.now }
    ensures { PutsLine numbers.now part.old result part.new }
{
    let mut end = put_number(part, numbers[0]);
    for n in &numbers[1..8] {
        part[end] = b' ';
        let at = end + 1;
        end = at + put_number(&mut part[at..], *n);
    }
    part[end] = b'\n';
    end + 1
}

// The `end` bytes of text are written where a line more may not fit behind them. It answers where the next line begins.
// A lent buffer with `end` beside it: docs/CLAIMS.md names `put_line` (`PutsLine`), whose promise is about the bytes of a lent buffer.
fn flush<W: Write>(out: &mut W, text: &[u8], end: usize) -> std::io::Result<usize>
    requires { (168 ≤ length text.now) × (end ≤ length text.now) }
    ensures { IfOk result (λ start. start + 168 ≤ length text.now) }
{
    if text.len() - end < 168 {
        out.write_all(&text[..end])?;
        return Ok(0);
    }
    Ok(end)
}

// The lines of the first `count` answers are written, by way of `text`.
pub fn show<W: Write>(
    out: &mut W,
    text: &mut [u8],
    answers: &[u64],
    count: usize,
) -> std::io::Result<()>
    requires room { 168 ≤ length text.old }
    requires answered { 8 * count ≤ length answers.now }
{
    let mut end: usize = 0;
    for numbers in answers[..8 * count].chunks_exact(8) {
        let start = flush(out, text, end)?;
        end = start + put_line(&mut text[start..], numbers);
    }
    out.write_all(&text[..end])
}

// The input is read until `buf` is full or the input ends. It answers how many bytes stand at the start of `buf`.
pub fn read_full<R: Read>(input: &mut R, buf: &mut [u8]) -> std::io::Result<usize>
    ensures { IfOk result (λ n. IsPrefixLen n buf.new) }
{
    // Not std's `read_exact`: it does not tell how many bytes came before the input ended.
    let mut done: usize = 0;
    while done < buf.len() {
        let n = input.read(&mut buf[done..])?;
        if n == 0 {
            break;
        }
        done += n;
    }
    Ok(done)
}

// One part of the trace is read and replayed, and its lines are written. The table stays such that the next part is not refused.
// It breaks off with a bad record, and with the end of the input.
fn part<R: Read, W: Write>(
    input: &mut R,
    out: &mut W,
    t: Table,
    mem: &mut [u8],
    records: &mut [u8],
    answers: &mut [u64],
    text: &mut [u8],
) -> std::io::Result<ControlFlow<Table, Table>>
    requires ready { Ready t mem.old }
    requires rooms { (length records.old ≤ 65536) × (16384 ≤ length answers.old) × (168 ≤ length text.old) }
    ensures { IfOk result (λ p. MatchControlFlow p (λ u. Ready u mem.new) (λ u. Ready u mem.new)) }
{
    let count = read_full(input, records)?;
    let ran = session::run(t, mem, &records[..count], answers).unwrap();
    show(out, text, answers, ran.answered)?;
    if ran.bad {
        out.write_all(b"bad record\n")?;
        return Ok(ControlFlow::Break(ran.table));
    }
    if count < records.len() {
        return Ok(ControlFlow::Break(ran.table));
    }
    Ok(ControlFlow::Continue(ran.table))
}

// The whole trace. A proved loop has to end, and nothing says that an input does: so the loop has a last turn, which no run comes to.
pub fn replay<R: Read, W: Write>(input: &mut R, out: &mut W) -> std::io::Result<()> {
    let mut t = slot_manager::make_table(65536).table;
    let mut mem = [0u8; 65536];
    let mut records = [0u8; 65536];
    let mut answers = [0u64; 16384];
    let mut text = [0u8; 65536];
    for _ in 0..u64::MAX {
        let ControlFlow::Continue(next) = part(
            input,
            out,
            t,
            &mut mem,
            &mut records,
            &mut answers,
            &mut text,
        )?
        else {
            return Ok(());
        };
        t = next;
    }
    Ok(())
}
