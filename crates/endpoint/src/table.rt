// The table of steps (xHCI 4.8.3): six resting states by nine inputs. An entry is a row, or a refusal.
ghost use Rattle.std.specs.Prelude.{◌≡◌, false, ◌≤◌, eqb, MatchResult};
ghost use Rattle.definition.specs.Table.{endpoint_number};
ghost use Rattle.definition.specs.Refusals.{code_of, told_as};
ghost use Rattle.definition.specs.Steps.{column, entry};

use definition::{EndpointState, Input, Refusal, Row};

type Entry = Result<Row, Refusal>;

// Code 0, and nothing happens.
const NOTHING: Row = Row {
    code: 0,
    next: None,
    byte: None,
    takes: false,
    looks: false,
    saves: false,
    cancels: false,
};

// A doorbell with no effect.
const IDLE: Entry = Ok(NOTHING);

// A command that the state does not take.
const WRONG: Entry = Err(Refusal::State);

// A host event that the state does not take.
const STRAY: Entry = Err(Refusal::Stray);

// The place is taken; a TRB found there gives In flight and submit, else Waiting.
const LOOK: Entry = Ok(Row {
    next: Some(EndpointState::Waiting),
    takes: true,
    looks: true,
    ..NOTHING
});

// Byte 1; look.
const RESUME: Entry = Ok(Row {
    next: Some(EndpointState::Waiting),
    byte: Some(1),
    takes: true,
    looks: true,
    ..NOTHING
});

// Byte 3, save; Stopped.
const STOP: Entry = Ok(Row {
    code: 1,
    next: Some(EndpointState::Stopped),
    byte: Some(3),
    saves: true,
    ..NOTHING
});

// Byte 3, save, cancel; Stopped-continuable.
const BREAK_OFF: Entry = Ok(Row {
    code: 1,
    next: Some(EndpointState::StoppedContinuable),
    byte: Some(3),
    saves: true,
    cancels: true,
    ..NOTHING
});

// The place is taken if given; byte 2, save; Halted.
const HALT: Entry = Ok(Row {
    next: Some(EndpointState::Halted),
    byte: Some(2),
    takes: true, // If given.
    saves: true,
    ..NOTHING
});

// Byte 4, save; Error.
const FAIL: Entry = Ok(Row {
    next: Some(EndpointState::Error),
    byte: Some(4),
    saves: true,
    ..NOTHING
});

// Byte 3, take, save; Stopped.
const AIM: Entry = Ok(Row {
    code: 1,
    next: Some(EndpointState::Stopped),
    byte: Some(3),
    takes: true,
    saves: true,
    ..NOTHING
});

// Byte 0; disabled, with a record that is all zero.
const END: Entry = Ok(Row {
    code: 1,
    next: Some(EndpointState::Disabled),
    byte: Some(0),
    takes: true,
    ..NOTHING
});

// Doorbell, Stop, Reset, Set Dequeue, Terminate, Ok, Stall, Transaction Error, TRB Error. A static: a constant would be laid out anew at each step.
static STEPS: [[Entry; 9]; 6] = [
    [LOOK, STOP, WRONG, WRONG, END, STRAY, STRAY, STRAY, STRAY], // Waiting.
    [IDLE, BREAK_OFF, WRONG, WRONG, END, LOOK, HALT, HALT, FAIL], // In flight.
    [IDLE, WRONG, STOP, WRONG, END, STRAY, STRAY, STRAY, STRAY], // Halted.
    [IDLE, WRONG, WRONG, AIM, END, STRAY, STRAY, STRAY, STRAY], // Error.
    [RESUME, WRONG, WRONG, AIM, END, STRAY, STRAY, STRAY, STRAY], // Stopped-continuable.
    [RESUME, WRONG, WRONG, AIM, END, STRAY, STRAY, STRAY, STRAY], // Stopped.
];

// An input's column. (An enum whose variants carry values has no numbers to cast.)
fn column_of(input: Input) -> usize
    ensures { result ≡ column input }
{
    match input {
        Input::Doorbell(_) => 0,
        Input::Stop => 1,
        Input::Reset => 2,
        Input::SetDequeue(_) => 3,
        Input::Terminate => 4,
        Input::Ok(_) => 5,
        Input::Stall(_) => 6,
        Input::TransactionError(_) => 7,
        Input::TrbError => 8,
    }
}

// The entry for an enabled endpoint's state and an input.
#[tactic(auto, unfolding(definition::specs::Steps::entry))]
pub fn row_of(s: EndpointState, input: Input) -> Entry
    requires { eqb (endpoint_number s) 0 ≡ false }
    ensures entry { told_as result ≡ entry s input }
    ensures answers { MatchResult result (λ r. r.code ≤ 1) (λ x. code_of x ≤ 196) }
{
    STEPS[s.number() as usize - 1][column_of(input)]
}
