// The record after a step, by a row of the table and what the input brings.
ghost use Rattle.std.specs.Prelude.{◌≡◌};
ghost use Rattle.definition.specs.Steps as steps;

use definition::{Endpoint, EndpointState, Look, Row};

// The place that the step takes.
fn taken(row: Row, report: Option<Look>) -> Option<Look>
    ensures { result ≡ steps.taken row report }
{
    if row.takes { report } else { None }
}

// The step looks, and a TRB was found.
pub fn submits(row: Row, report: Option<Look>) -> bool
    ensures { result ≡ steps.submits row report }
{
    row.looks && report.is_some_and(|look| look.found)
}

// The place that the step takes is not a multiple of 16.
pub fn misaligned(row: Row, report: Option<Look>) -> bool
    ensures { result ≡ steps.misaligned row report }
{
    taken(row, report).is_some_and(|place| place.pointer % 16 != 0)
}

fn next_state(row: Row, s: EndpointState, report: Option<Look>) -> EndpointState
    ensures { result ≡ steps.next_state row s report }
{
    if submits(row, report) {
        EndpointState::InFlight
    } else {
        row.next.unwrap_or(s)
    }
}

// The record after the step.
pub fn moved(row: Row, e: Endpoint, report: Option<Look>) -> Endpoint
    ensures { result ≡ steps.moved row e report }
{
    let state = next_state(row, e.state, report);
    match taken(row, report) {
        Some(place) => Endpoint {
            state,
            cycle: place.cycle,
            pointer: place.pointer,
        },
        None => Endpoint { state, ..e },
    }
}
