// All fifty-four entries of the table of steps, each with the places that its input can bring, and launch and terminate.
// A line has: the state and the input with its place; the answer's code, submit, cancel and bytes stored; the record; the memory.
// A place is pointer and cycle. Pointers are in hexadecimal, and so is memory: five words of 8 bytes, the context's 32 from byte 8 on.
// The file stdout was not made by a run: tests/make_steps.py, a script that was written from the scope document, made it.
// oracle/steps.py holds it against the unchanged Rust, line by line, where the Rust has an answer.
#![tactic(auto)]

ghost use Rattle.std.specs.Prelude.{◌≡◌, false, eqb};
ghost use Rattle.definition.specs.Table.{endpoint_number};

mod show;

use definition::{Dequeue, Endpoint, EndpointState, Input, Look, Refusal};
use endpoint::{Taken, Terminated};
use show::Shown;
use std::io;
use std::io::{BufWriter, Write};

// A pointer that a step may take, and one that it must refuse where it uses it.
const ALIGNED: u64 = 0x2340;

const UNALIGNED: u64 = 0x2348;

// What a look at the ring may report to a doorbell and to an Ok.
const LOOKS: [Look; 4] = [
    Look {
        found: false,
        pointer: ALIGNED,
        cycle: true,
    },
    Look {
        found: true,
        pointer: ALIGNED,
        cycle: false,
    },
    Look {
        found: false,
        pointer: UNALIGNED,
        cycle: true,
    },
    Look {
        found: true,
        pointer: UNALIGNED,
        cycle: true,
    },
];

// Places with cycle 0 and 1, and one that must be refused.
const CLEAR: Dequeue = Dequeue {
    pointer: ALIGNED,
    cycle: false,
};

const SET: Dequeue = Dequeue {
    pointer: ALIGNED,
    cycle: true,
};

const REFUSED: Dequeue = Dequeue {
    pointer: UNALIGNED,
    cycle: true,
};

// The places of Set TR Dequeue Pointer, and those that a host error may bring.
const PLACES: [Dequeue; 3] = [CLEAR, SET, REFUSED];

const GIVEN: [Option<Dequeue>; 3] = [Some(CLEAR), Some(REFUSED), None];

const ENABLED: [EndpointState; 6] = [
    EndpointState::Waiting,
    EndpointState::InFlight,
    EndpointState::Halted,
    EndpointState::Error,
    EndpointState::StoppedContinuable,
    EndpointState::Stopped,
];

// Memory before a call: ee all over.
const FRESH: [u8; 40] = [0xee; 40];

// A state of the table of steps: any but Disabled.
#[derive(Clone, Copy)]
struct Enabled {
    state: EndpointState,
    ghost enabled: { eqb (endpoint_number state) 0 ≡ false },
}

// What a refused step leaves: the record as it was, and the code.
fn kept(endpoint: Endpoint, refusal: Refusal) -> Taken {
    Taken {
        endpoint,
        code: refusal.code(),
        submit: false,
        cancel: false,
        stored: 0,
    }
}

// One step of an endpoint at place 1230 with cycle 1.
fn step<W: Write>(out: &mut W, from: Enabled, input: Input) -> io::Result<()> {
    let mut mem = FRESH;
    let before = Endpoint {
        state: from.state,
        cycle: true,
        pointer: 0x1230,
    };
    let taken = endpoint::step(before, input, &mut mem, 8);
    let Taken {
        endpoint,
        code,
        submit,
        cancel,
        stored,
    } = taken.unwrap_or_else(|refusal| kept(before, refusal));
    writeln!(
        out,
        "{} {} | {code} {} {} {stored} | {} |{}",
        Shown(from.state),
        Shown(input),
        u8::from(submit),
        u8::from(cancel),
        Shown(endpoint),
        Shown(mem)
    )
}

// The nine inputs in one state.
fn row<W: Write>(out: &mut W, from: Enabled) -> io::Result<()> {
    for look in LOOKS {
        step(out, from, Input::Doorbell(look))?;
    }
    step(out, from, Input::Stop)?;
    step(out, from, Input::Reset)?;
    for place in PLACES {
        step(out, from, Input::SetDequeue(place))?;
    }
    step(out, from, Input::Terminate)?;
    for look in LOOKS {
        step(out, from, Input::Ok(look))?;
    }
    for given in GIVEN {
        step(out, from, Input::Stall(given))?;
    }
    for given in GIVEN {
        step(out, from, Input::TransactionError(given))?;
    }
    step(out, from, Input::TrbError)
}

// The launch of an endpoint whose context has this dequeue word.
fn launch<W: Write>(out: &mut W, word: u64) -> io::Result<()> {
    let mut mem = FRESH;
    guest::context::store_pointer(&mut mem, 8, word);
    let endpoint = endpoint::launch(&mut mem, 8);
    writeln!(out, "launch {word:x} | {} |{}", Shown(endpoint), Shown(mem))
}

fn terminate<W: Write>(out: &mut W, before: Endpoint) -> io::Result<()> {
    let mut mem = FRESH;
    let Terminated { endpoint, stored } = endpoint::terminate(before, &mut mem, 8);
    writeln!(
        out,
        "terminate {} | {stored} | {} |{}",
        Shown(before.state),
        Shown(endpoint),
        Shown(mem)
    )
}

fn terminations<W: Write>(out: &mut W) -> io::Result<()> {
    terminate(out, Endpoint::DISABLED)?;
    for state in ENABLED {
        let enabled = Endpoint {
            state,
            cycle: true,
            pointer: ALIGNED,
        };
        terminate(out, enabled)?;
    }
    Ok(())
}

fn main(rt: HostRuntime) -> io::Result<()> {
    let mut out = BufWriter::new(rt.alloc(), io::writer(&rt))?;
    for state in ENABLED {
        row(&mut out, Enabled { state })?;
    }
    for word in [0x2341, 0x234f, 0x234e, u64::MAX] {
        launch(&mut out, word)?;
    }
    terminations(&mut out)?;
    out.flush()
}
