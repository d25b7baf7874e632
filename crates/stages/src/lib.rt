// The start tables of the bench, and the look at its last one.
// The driver has put DCBAA entry 1 and three input contexts into the memory: endpoint 1; 3 dropped and added; 2 to 31 dropped and added.
#![tactic(auto)]

use definition::{Outcome, Table};

// The input contexts' addresses.
const INPUT_1: u64 = 16384;

const INPUT_3: u64 = 20480;

const INPUT_ALL: u64 = 24576;

// A call of slot 1's life.
#[derive(Clone, Copy)]
enum Step {
    Enable,
    Address { bsr: bool },
    Configure { pointer: u64, dc: bool },
    Stop,
    Reset,
}

// The call after stage k. From stage 1 on slot 1 is: 1 Enabled, 2 Default, 3 Addressed, 4 Configured with endpoint 3, 5 that one Stopped, 6 with 2 to 31,
// 7 Addressed by DC=1, 8 Default by Reset Device.
fn step_after(k: u64) -> Step {
    match k {
        0 => Step::Enable,
        1 => Step::Address { bsr: true },
        2 => Step::Address { bsr: false },
        3 => Step::Configure {
            pointer: INPUT_3,
            dc: false,
        },
        4 => Step::Stop,
        6 => Step::Configure {
            pointer: INPUT_ALL,
            dc: true,
        },
        7 => Step::Reset,
        _ => Step::Configure {
            pointer: INPUT_ALL,
            dc: false,
        },
    }
}

// None of these is a public call, so that each of those has one caller in the bench, as in a controller (the doorbell and Stop Endpoint have two).
fn next(t: Table, mem: &mut [u8], step: Step) -> Outcome {
    if let Err(refusal) = scan::checks(t, mem.len() as u64) {
        return scan::refuse(t, refusal);
    }
    match step {
        Step::Enable => registers::enable_slot(t),
        Step::Address { bsr } => formed::address_device(t, mem, 1, INPUT_1, bsr),
        Step::Configure { pointer, dc } => formed::configure_endpoint(t, mem, 1, pointer, dc),
        Step::Stop => formed::stop_endpoint(t, mem, 1, 3),
        Step::Reset => formed::reset_device(t, mem, 1),
    }
}

// The table after the first `stage` calls of slot 1's life. Stage 0 is a fresh table with limit 16 and DCBAAP 256.
pub fn life(mem: &mut [u8], stage: u64) -> Table {
    let mut t = slot_manager::make_table(mem.len() as u64).table;
    t.limit = 16;
    t.dcbaap = 256;
    for k in 0..stage {
        t = next(t, mem, step_after(k)).table;
    }
    t
}

// The sum, once the last table is found well formed: the whole of it is read, so each turn must write it.
pub fn summed(kept: Table, a: u64) -> u64 {
    if scan::well_formed(kept) { a } else { 0 }
}
