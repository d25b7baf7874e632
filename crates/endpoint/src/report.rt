// What an input brings.
ghost use Rattle.std.specs.Prelude.{◌≡◌};
ghost use Rattle.definition.specs.Steps.{report_of};

use definition::{Dequeue, Input, Look};

// The place that an input brings, and whether a TRB was found there. Terminate brings place 0: the record of a disabled endpoint is all zero.
pub fn report_of(input: Input) -> Option<Look>
    ensures { result ≡ report_of input }
{
    match input {
        Input::Doorbell(look) | Input::Ok(look) => Some(look),
        Input::SetDequeue(place) => Some(Look::from(place)),
        Input::Stall(given) | Input::TransactionError(given) => given.map(Look::from),
        Input::Terminate => Some(Look::from(Dequeue {
            pointer: 0,
            cycle: false,
        })),
        Input::Stop | Input::Reset | Input::TrbError => None,
    }
}
