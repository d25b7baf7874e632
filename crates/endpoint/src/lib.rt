// One endpoint of a device slot: its fifty-four steps (xHCI 4.8.3), its launch and its end.
// Each function takes the endpoint's record by value, and the lent memory with the index of the endpoint's context.
#![tactic(auto)]

mod context;
mod record;
mod report;
mod table;

ghost use Rattle.std.specs.Prelude.{◌≡◌, false, ◌+◌, ◌≤◌, length};
ghost use Rattle.definition.specs.Table.{is_disabled};
ghost use Rattle.definition.specs.Steps.{step_by, step};
ghost use Rattle.endpoint.specs.Promises.{Ready, Takes, Launches, Terminates};

use definition::{Endpoint, EndpointState, Input, Look, Refusal, Row};

// What a step leaves: the record, the answer's code (0 or 1), the effects, the count of bytes stored.
#[derive(Clone, Copy)]
pub struct Taken {
    pub endpoint: Endpoint,
    pub code: u64,
    pub submit: bool,
    pub cancel: bool,
    pub stored: u64,
}

// What a termination leaves: the record, the count of bytes stored. (In a `Taken` the other three fields would mean nothing.)
#[derive(Clone, Copy)]
pub struct Terminated {
    pub endpoint: Endpoint,
    pub stored: u64,
}

// The endpoint is disabled. (docs/CLAIMS.md names the function; the method does it.)
pub fn is_disabled(e: Endpoint) -> bool
    ensures { result ≡ is_disabled e }
{
    e.is_disabled()
}

// A step by a row of the table. The state was judged; the alignment is judged here.
#[tactic(auto, using(crate::proofs::StepLaws::refused_place))]
fn step_by(
    row: Row,
    e: Endpoint,
    report: Option<Look>,
    mem: &mut [u8],
    at: usize,
) -> Result<Taken, Refusal>
    requires code_bound { row.code ≤ 1 }
    requires ready { Ready e at mem.old }
    ensures { Takes (step_by row e report at) mem.old result mem.new }
{
    if record::misaligned(row, report) {
        return Err(Refusal::Unaligned);
    }
    let endpoint = record::moved(row, e, report);
    let submit = record::submits(row, report);
    let stored = context::store(row, endpoint, mem, at);
    Ok(Taken {
        endpoint,
        code: u64::from(row.code),
        submit,
        cancel: row.cancels,
        stored,
    })
}

// One step of the enabled endpoint whose context is at `at`.
#[tactic(auto, using(crate::proofs::StepLaws::refused_state, crate::proofs::StepLaws::by_row))]
pub fn step(e: Endpoint, input: Input, mem: &mut [u8], at: usize) -> Result<Taken, Refusal>
    requires e_value { is_disabled e ≡ false }
    requires ready { Ready e at mem.old }
    ensures { Takes (step e input at) mem.old result mem.new }
{
    let row = table::row_of(e.state, input)?;
    step_by(row, e, report::report_of(input), mem, at)
}

// The endpoint whose context is at `at` is launched: state byte 1, its place from the dequeue word, Waiting.
#[tactic(auto, using(crate::proofs::StepLaws::launched))]
pub fn launch(mem: &mut [u8], at: usize) -> Endpoint
    requires { at + 32 ≤ length mem.old }
    ensures { Launches at mem.old result mem.new }
{
    guest::context::store_state(mem, at, 1);
    let word = guest::words::read_u64(mem, at + 8);
    Endpoint {
        state: EndpointState::Waiting,
        cycle: guest::bits::cycle_of(word),
        pointer: guest::bits::pointer_of(word),
    }
}

// The endpoint whose context is at `at` is terminated: state byte 0, disabled. A disabled one is passed over.
#[tactic(auto, using(crate::proofs::StepLaws::passed_over, crate::proofs::StepLaws::terminated))]
pub fn terminate(e: Endpoint, mem: &mut [u8], at: usize) -> Terminated
    requires { is_disabled e ≡ false → at + 32 ≤ length mem.old }
    ensures { Terminates e at mem.old result mem.new }
{
    if e.is_disabled() {
        return Terminated {
            endpoint: e,
            stored: 0,
        };
    }
    guest::context::store_state(mem, at, 0);
    Terminated {
        endpoint: Endpoint::DISABLED,
        stored: 1,
    }
}
