// How a line's values are written: a bool as 0 or 1, pointers and memory in hexadecimal.
use definition::{Dequeue, Endpoint, EndpointState, Input, Look};
use std::fmt;

// A value of another crate's type, as a line has it.
#[derive(Clone, Copy)]
pub struct Shown<T>(pub T);

impl fmt::Display for Shown<EndpointState> {
    fn fmt<W: fmt::Write>(&self, f: &mut fmt::Formatter<W>) -> fmt::Result {
        f.write_str(match self.0 {
            EndpointState::Disabled => "disabled",
            EndpointState::Waiting => "waiting",
            EndpointState::InFlight => "in-flight",
            EndpointState::Halted => "halted",
            EndpointState::Error => "error",
            EndpointState::StoppedContinuable => "stopped-continuable",
            EndpointState::Stopped => "stopped",
        })
    }
}

// Pointer and cycle.
impl fmt::Display for Shown<Dequeue> {
    fn fmt<W: fmt::Write>(&self, f: &mut fmt::Formatter<W>) -> fmt::Result {
        let Dequeue { pointer, cycle } = self.0;
        write!(f, "{pointer:x} {}", u8::from(cycle))
    }
}

impl fmt::Display for Shown<Look> {
    fn fmt<W: fmt::Write>(&self, f: &mut fmt::Formatter<W>) -> fmt::Result {
        let Look {
            found,
            pointer,
            cycle,
        } = self.0;
        write!(
            f,
            "{} {}",
            u8::from(found),
            Shown(Dequeue { pointer, cycle })
        )
    }
}

impl fmt::Display for Shown<Option<Dequeue>> {
    fn fmt<W: fmt::Write>(&self, f: &mut fmt::Formatter<W>) -> fmt::Result {
        match self.0 {
            Some(place) => write!(f, "{}", Shown(place)),
            None => f.write_str("nowhere"),
        }
    }
}

impl fmt::Display for Shown<Input> {
    fn fmt<W: fmt::Write>(&self, f: &mut fmt::Formatter<W>) -> fmt::Result {
        match self.0 {
            Input::Doorbell(look) => write!(f, "doorbell {}", Shown(look)),
            Input::Stop => f.write_str("stop"),
            Input::Reset => f.write_str("reset"),
            Input::SetDequeue(place) => write!(f, "set-dequeue {}", Shown(place)),
            Input::Terminate => f.write_str("terminate"),
            Input::Ok(look) => write!(f, "ok {}", Shown(look)),
            Input::Stall(given) => write!(f, "stall {}", Shown(given)),
            Input::TransactionError(given) => write!(f, "transaction-error {}", Shown(given)),
            Input::TrbError => f.write_str("trb-error"),
        }
    }
}

impl fmt::Display for Shown<Endpoint> {
    fn fmt<W: fmt::Write>(&self, f: &mut fmt::Formatter<W>) -> fmt::Result {
        let Endpoint {
            state,
            cycle,
            pointer,
        } = self.0;
        write!(f, "{} {}", Shown(state), Shown(Dequeue { pointer, cycle }))
    }
}

// Five words of 8 bytes.
impl fmt::Display for Shown<[u8; 40]> {
    fn fmt<W: fmt::Write>(&self, f: &mut fmt::Formatter<W>) -> fmt::Result {
        for word in self.0.as_chunks().0 {
            write!(f, " {:016x}", u64::from_le_bytes(*word))?;
        }
        Ok(())
    }
}
