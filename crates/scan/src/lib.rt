// How a call begins: whether its table is well formed, whether the lent memory is the table's, and which slot it is for.
// Each function that takes the table indexes it itself, and hands on single records, numbers and, to `find`, the sixteen slots.
#![tactic(auto)]

mod records;

ghost use Rattle.std.specs.Prelude.{◌≡◌, ◌&&◌, leb};
ghost use Rattle.definition.specs.Table as tables;
ghost use Rattle.definition.specs.Commands as commands;
ghost use Rattle.definition.specs.Refusals.{code_of};
ghost use Rattle.scan.specs.Heads as heads;

use definition::{Answer, Endpoint, Outcome, Refusal, Slot, Table};
use records::Faults;

// How a call begins that is not refused: what the look for its slot found, and the record of its endpoint, a disabled endpoint's where there is none.
#[derive(Clone, Copy)]
pub struct Head {
    pub found: Option<Slot>,
    pub endpoint: Endpoint,
}

// The slot with this id, if it is in use.
fn find(slots: [Slot; 16], id: u64) -> Option<Slot>
    ensures { result ≡ heads.found_in slots id }
{
    if id == 0 || 16 < id {
        return None;
    }
    // No method of `Table`, here and in `opens`: by value it would copy 8,344 bytes (docs/PERFORMANCE.md), by reference each caller's proof would open it.
    let slot = slots[(id - 1) as usize];
    if slot.is_free() {
        return None;
    }
    Some(slot)
}

// The slot with this id; nothing where the id is 0, above 16, or free.
pub fn lookup(t: Table, id: u64) -> Option<Slot>
    ensures { result ≡ tables.lookup t id }
{
    find(t.slots, id)
}

// An endpoint has this number.
fn in_range(i: u64) -> bool
    ensures { result ≡ (leb 1 i && leb i 31) }
{
    1 <= i && i <= 31
}

// How a call begins that lends `len` bytes, for the slot with this id and, in some calls, its endpoint i: the record is a disabled endpoint's where i is 0 or
// above 31. This is the one function that goes over the whole table. What is wrong with a slot's records is gathered, and tested once for the slot: in two
// loops, each with a test of its own, since the compiler then makes two loads a record for a slot that has no contexts, where it made three.
pub fn opens(t: Table, len: u64, id: u64, i: u64) -> Result<Head, Refusal>
    ensures { result ≡ heads.head_for t len id i }
{
    if 16 < t.limit {
        return Err(Refusal::Malformed);
    }
    if 1073741824 < t.length {
        return Err(Refusal::Malformed);
    }
    for s in 1..17 {
        let slot = t.slots[s - 1];
        if !records::slot_ok(slot, t.endpoints[(s - 1) * 31], t.length) {
            return Err(Refusal::Malformed);
        }
        // Three locals, made one value of `Faults` for the test: gathered in one, state and cycle are loaded apart, and the scan takes half as long again.
        let mut flags: u8 = 0;
        let mut cycle = false;
        let mut pointer: u64 = 0;
        if !records::has_contexts(slot.state) {
            for n in 1..32 {
                let wrong = records::nonzero(t.endpoints[(s - 1) * 31 + (n - 1)]);
                flags |= wrong.flags;
                cycle |= wrong.cycle;
                pointer |= wrong.pointer;
            }
            let gathered = Faults {
                flags,
                cycle,
                pointer,
            };
            if gathered.any() {
                return Err(Refusal::Malformed);
            }
            continue;
        }
        // n is cast: it is an index, and u64 has no From of a usize.
        for n in 1..32 {
            let e = t.endpoints[(s - 1) * 31 + (n - 1)];
            let wrong = records::faults_of(t.length, slot.base, n as u64, e);
            flags |= wrong.flags;
            cycle |= wrong.cycle;
            pointer |= wrong.pointer;
        }
        let gathered = Faults {
            flags,
            cycle,
            pointer,
        };
        if gathered.any() {
            return Err(Refusal::Malformed);
        }
    }
    if t.length != len {
        return Err(Refusal::OtherMemory);
    }
    let Some(slot) = find(t.slots, id) else {
        return Ok(Head {
            found: None,
            endpoint: Endpoint::DISABLED,
        });
    };
    if !in_range(i) {
        return Ok(Head {
            found: Some(slot),
            endpoint: Endpoint::DISABLED,
        });
    }
    // By hand, as in `find`.
    let k = ((id - 1) * 31 + (i - 1)) as usize;
    Ok(Head {
        found: Some(slot),
        endpoint: t.endpoints[k],
    })
}

// The table is well formed: a call that lends its own length is not refused.
pub fn well_formed(t: Table) -> bool
    ensures { result ≡ tables.well_formed t }
{
    opens(t, t.length, 0, 0).is_ok()
}

// How a call that lends `len` bytes begins, where it is for no slot.
pub fn checks(t: Table, len: u64) -> Result<(), Refusal>
    ensures { result ≡ heads.checked t len }
{
    opens(t, len, 0, 0)?;
    Ok(())
}

// An answer that is 0 but for its code.
pub fn answer(code: u64) -> Answer
    ensures { result ≡ commands.answer code }
{
    Answer {
        code,
        slot: 0,
        launched: 0,
        terminated: 0,
        port: 0,
        stored: 0,
        submit: 0,
        cancel: 0,
    }
}

// A refusal by its code: the table as it was, and all but the code is 0. (A number: the contract takes any.)
pub fn refused(t: Table, code: u64) -> Outcome
    ensures { result ≡ heads.refusal t code }
{
    Outcome {
        table: t,
        answer: answer(code),
    }
}

// A refusal.
pub fn refuse(t: Table, refusal: Refusal) -> Outcome
    ensures { result ≡ heads.refusal t (code_of refusal) }
{
    refused(t, refusal.code())
}
