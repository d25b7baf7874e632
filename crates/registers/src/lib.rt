// Making a table, the slot limit and DCBAAP, Enable Slot (xHCI 4.6.3) and reset of all slots, each on a well formed table
// (asked in a clause: docs/CLAIMS.md names them so). Only reset of all slots is lent memory: what the others promise holds over any.
#![tactic(auto)]

ghost use Rattle.std.specs.Prelude.{◌≡◌, true, ◌≤◌, length, IfSome};
ghost use Rattle.definition.specs.Table.{fresh_table, well_formed};
ghost use Rattle.definition.specs.Calls.{set_limit, set_dcbaap, enable_slot, reset_all, prog, made, Meets};
ghost use Rattle.registers.specs.Promises.{AnswersAlone, first_free};

use definition::{Answer, Endpoint, Outcome, Refusal, Slot, SlotState, Table};

// A table with no slot, for a memory of this length.
fn fresh(length: u64) -> Table
    ensures { result ≡ fresh_table length }
{
    Table {
        limit: 0,
        length,
        dcbaap: 0,
        slots: [Slot::FREE; 16],
        endpoints: [Endpoint::DISABLED; 496],
    }
}

// A fresh table for a memory of this length; 197 and a table for length 0 where that is too long.
pub fn make_table(length: u64) -> Outcome
    ensures { result ≡ made length }
{
    if length <= 1073741824 {
        return Outcome {
            table: fresh(length),
            answer: scan::answer(0),
        };
    }
    scan::refuse(fresh(0), Refusal::TooLarge)
}

// The slot limit, 0 to 16. Slots above a lowered limit stay.
pub fn set_limit(t: Table, limit: u64) -> Outcome
    requires { well_formed t ≡ true }
    ensures { AnswersAlone (set_limit limit) t result }
{
    if 16 < limit {
        return scan::refuse(t, Refusal::TooLarge);
    }
    Outcome {
        table: Table { limit, ..t },
        answer: scan::answer(0),
    }
}

// DCBAAP, kept as given.
pub fn set_dcbaap(t: Table, dcbaap: u64) -> Outcome
    requires { well_formed t ≡ true }
    ensures { AnswersAlone (set_dcbaap dcbaap) t result }
{
    Outcome {
        table: Table { dcbaap, ..t },
        answer: scan::answer(0),
    }
}

// The smallest free id from 1 to the limit. (`1..limit + 1`: of what `find` finds in `1..=limit` std has no lemma.)
fn first_free(slots: [Slot; 16], limit: u64) -> Option<u64>
    requires { limit ≤ 16 }
    ensures first { result ≡ first_free slots limit }
    ensures within { IfSome result (λ id. (1 ≤ id) × (id ≤ 16)) }
{
    (1..limit + 1).find(|id| slots[(*id - 1) as usize].is_free())
}

// The smallest free id within the limit, Enabled, with its DCBAA entry's address fixed; 9 where there is none.
pub fn enable_slot(t: Table) -> Outcome
    requires { well_formed t ≡ true }
    ensures { AnswersAlone enable_slot t result }
{
    let Some(id) = first_free(t.slots, t.limit) else {
        return scan::refuse(t, Refusal::NoFreeSlot);
    };
    let entry = guest::address::plus(t.dcbaap, 8 * id);
    let mut slots = t.slots;
    slots[(id - 1) as usize] = Slot {
        state: SlotState::Enabled,
        base: 0,
        entry,
    };
    Outcome {
        table: Table { slots, ..t },
        answer: Answer {
            slot: id,
            ..scan::answer(1)
        },
    }
}

// Every slot is freed, ascending; limit and DCBAAP are 0.
pub fn reset_all(t: Table, mem: &mut [u8]) -> Outcome
    requires { (well_formed t ≡ true) × (t.length ≡ length mem.old) }
    ensures { Meets (prog reset_all (length mem.old) t) mem.old result mem.new }
{
    let freed = walks::free_all(t, mem);
    Outcome {
        table: Table {
            limit: 0,
            dcbaap: 0,
            ..freed.table
        },
        answer: Answer {
            stored: freed.stored,
            ..scan::answer(0)
        },
    }
}
