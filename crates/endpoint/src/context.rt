// What a step stores in the endpoint's context, by a row of the table.
ghost use Rattle.std.specs.Prelude.{◌≡◌, ◌%◌};
ghost use Rattle.definition.specs.Steps.{word_of};
ghost use Rattle.endpoint.specs.Stores.{Stores};
ghost use Rattle.endpoint.specs.Promises.{Ready};

use definition::{Endpoint, Row};

// The dequeue word of a record: pointer plus cycle.
fn word_of(e: Endpoint) -> u64
    requires { e.pointer % 16 ≡ 0 }
    ensures { result ≡ word_of e }
{
    e.pointer + u64::from(e.cycle)
}

// The state byte, then the dequeue word of the record after the step, each where the step stores it. The result counts the bytes.
pub fn store(row: Row, e: Endpoint, mem: &mut [u8], at: usize) -> u64
    requires { Ready e at mem.old }
    ensures { Stores row e at mem.old mem.new result }
{
    let mut stored = 0;
    if let Some(byte) = row.byte {
        guest::context::store_state(mem, at, byte);
        stored += 1;
    }
    if row.saves {
        guest::context::store_pointer(mem, at, word_of(e));
        stored += 8;
    }
    stored
}
