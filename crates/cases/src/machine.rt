// A slot table and a guest's memory, on which a script acts.
use crate::show;
use calls::Shown;
use definition::{Answer, Table};
use scripts::{Act, Call, Place, Setting};
use std::io;
use std::io::Write;

#[derive(Drop)]
pub struct Machine {
    table: Table,
    mem: [u8; 4096],
}

impl Machine {
    // "Memory 4096", a limit, "DCBAAP 256"; "entry at 264 holding 1024, P=2048, flags 3, byte 2116 = 32, eight bytes at 2120 holding 3073, all else 0",
    // for any base in the entry.
    pub fn new(setting: Setting) -> Machine {
        let fresh = slot_manager::make_table(4096).table;
        let limited = slot_manager::set_limit(fresh, setting.limit).table;
        let mut mem = [0; 4096];
        guest::words::store_u64(&mut mem, 264, setting.base);
        mem[2052] = 3;
        mem[2116] = 32;
        guest::words::store_u64(&mut mem, 2120, 3073);
        Machine {
            table: slot_manager::set_dcbaap(limited, 256).table,
            mem,
        }
    }

    fn call(&mut self, call: Call) -> Answer {
        let table = self.table;
        let outcome = match call {
            Call::EnableSlot => slot_manager::enable_slot(table),
            Call::AddressDevice { id, pointer, bsr } => {
                slot_manager::address_device(table, &mut self.mem, id, pointer, bsr)
            }
            Call::ConfigureEndpoint { id, pointer, dc } => {
                slot_manager::configure_endpoint(table, &mut self.mem, id, pointer, dc)
            }
            Call::StopEndpoint { id, endpoint } => {
                slot_manager::stop_endpoint(table, &mut self.mem, id, endpoint)
            }
            Call::ResetAll => slot_manager::reset_all(table, &mut self.mem),
        };
        self.table = outcome.table;
        outcome.answer
    }

    // Nothing is found past the memory.
    fn found(&self, place: Place) -> Option<u64> {
        match place {
            Place::Byte(at) => self.mem.get(at).map(|byte| u64::from(*byte)),
            Place::Word(at) => (at <= 4088).then(|| guest::words::read_u64(&self.mem, at)),
            Place::Pointer => Some(self.table.endpoints[0].pointer),
            Place::Cycle => Some(u64::from(self.table.endpoints[0].cycle)),
        }
    }

    pub fn perform<W: Write>(&mut self, out: &mut W, act: Act) -> io::Result<()> {
        match act {
            Act::Byte(at, byte) => {
                if let Some(place) = self.mem.get_mut(at) {
                    *place = byte;
                }
            }
            Act::Word(at, word) => {
                if at <= 4088 {
                    guest::words::store_u64(&mut self.mem, at, word);
                }
            }
            Act::Call(call) => {
                self.call(call);
            }
            Act::Try(case, call, expected) => {
                let came = Shown(self.call(call));
                show::compare(out, case, call, Shown(expected), came)?;
            }
            Act::See(case, place, expected) => {
                if let Some(came) = self.found(place) {
                    show::compare(out, case, place, expected, came)?;
                }
            }
        }
        Ok(())
    }
}
