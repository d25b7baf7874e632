// A recorded session, replayed: its records one after the other, each a call or a guest store of one byte.
#![tactic(auto)]

ghost use Rattle.std.specs.Prelude.{◌≡◌, ◌+◌, ◌*◌, ◌≤◌, length};
ghost use Rattle.guest.specs.Prog.{splice};
ghost use Rattle.formed.specs.Promises.{Ready};
ghost use Rattle.session.specs.declared.Refused.TheVariants.{Call};
ghost use Rattle.session.specs.Refusals.{number_of};
ghost use Rattle.session.specs.Sessions.{records_in, numbers, room_for, Plays, Runs};

use definition::{Answer, Refusal, Table};
use trace::Entry;

// What a run leaves, beside the memory and the answers.
#[derive(Clone, Copy)]
pub struct Ran {
    pub table: Table,
    // How many calls were answered: eight numbers each.
    pub answered: usize,
    // A bad record ended the run. (A flag: such a run has its table and answers all the same, so that it is no error.)
    pub bad: bool,
}

// Why nothing was run.
#[derive(Clone, Copy, Debug, PartialEq, Eq)]
pub enum Refused {
    // As a call is that lends the memory: the table is malformed, or the memory is not the table's own.
    Call(Refusal),
    // The answers may not fit.
    NoRoom,
}

// Its code.
impl From<Refused> for u64 {
    ghost from_gives = { λ refused code. code ≡ number_of refused };

    fn from(refused: Refused) -> u64 {
        match refused {
            Refused::Call(refusal) => refusal.code(),
            Refused::NoRoom => 200,
        }
    }
}

// What `?` makes of a call's refusal.
impl From<Refusal> for Refused {
    ghost from_gives = { λ refusal refused. refused ≡ Call refusal };

    fn from(refusal: Refusal) -> Self {
        Self::Call(refusal)
    }
}

// An answer's eight numbers.
fn numbers(a: Answer) -> [u64; 8]
    ensures { result ≡ numbers a }
{
    [
        a.code,
        a.slot,
        a.launched,
        a.terminated,
        a.port,
        a.stored,
        a.submit,
        a.cancel,
    ]
}

// Answer n, from 0 on, goes behind those before it. Places by `chunks_exact_mut` would be no plainer: the answers are counted anyway.
fn put(answers: &mut [u64], n: usize, a: Answer)
    requires { 8 * n + 8 ≤ length answers.old }
    ensures { answers.new ≡ splice answers.old (8 * n) (numbers a) }
{
    let at = 8 * n;
    answers[at..at + 8].copy_from_slice(&numbers(a));
}

// The records are replayed, up to the first bad one.
fn play(t: Table, mem: &mut [u8], records: &[u8], answers: &mut [u64]) -> Ran
    requires ready { Ready t mem.old }
    requires records_in_bounds { 8 * records_in (length records.now) ≤ length answers.old }
    ensures { Plays t mem.old records.now answers.old result mem.new answers.new }
{
    let size = mem.len() as u64;
    let mut table = t;
    let mut answered: usize = 0;
    for record in records.chunks(32) {
        let Ok(entry) = trace::record::decode(record, size) else {
            return Ran {
                table,
                answered,
                bad: true,
            };
        };
        match entry {
            Entry::Store(b) => {
                guest::words::store_byte(mem, guest::address::index(b.address), b.value);
            }
            Entry::Call(c) => {
                let outcome = trace::apply::apply(table, mem, c);
                put(answers, answered, outcome.answer);
                table = outcome.table;
                answered += 1;
            }
        }
    }
    Ran {
        table,
        answered,
        bad: false,
    }
}

// The answers to a trace of so many bytes fit into so many numbers, even if each record is a call.
fn has_room(bytes: usize, numbers: usize) -> bool
    ensures { result ≡ room_for bytes numbers }
{
    8 * bytes.div_ceil(32) <= numbers
}

// A trace is replayed on a table and its memory. The answers' numbers go to `answers` from its start on. What is refused changes nothing.
pub fn run(t: Table, mem: &mut [u8], records: &[u8], answers: &mut [u64]) -> Result<Ran, Refused>
    ensures { Runs t mem.old records.now answers.old result mem.new answers.new }
{
    scan::checks(t, mem.len() as u64)?;
    if !has_room(records.len(), answers.len()) {
        return Err(Refused::NoRoom);
    }
    Ok(play(t, mem, records, answers))
}
