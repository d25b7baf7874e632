// Loops over the calls, for a driver in another language (`bench_c` exports them): each makes a start table (`stages`), calls the slot manager n times, and gives the sum of the answers' codes.
#![tactic(auto)]

ghost use Rattle.std.specs.Prelude.{◌≡◌, true};
ghost use Rattle.definition.specs.Table.{well_formed};
ghost use Rattle.bench.specs.Call.{Names};

use definition::{Dequeue, Look, Outcome, Table};

// ---- the calls

// A call. A loop is given its number, knows some of the calls, and takes any other for the last of those that its comment names; but `bench_formed` takes 1, 2
// and 3 for Evaluate Context. What a caller gets for every number stays.
#[derive(Clone, Copy, Debug, PartialEq, Eq)]
pub enum Call {
    Enable,
    Disable,
    Address,
    Configure,
    Evaluate,
    Stop,
    SetDequeue,
    Reset,
    Doorbell,
}

// A number that no call has.
#[derive(Clone, Copy, Debug, PartialEq, Eq)]
pub struct NoCall(pub u64);

impl TryFrom<u64> for Call {
    type Error = NoCall;

    ghost try_from_gives = { Names };

    fn try_from(number: u64) -> Result<Self, NoCall> {
        match number {
            0 => Ok(Call::Enable),
            1 => Ok(Call::Disable),
            2 => Ok(Call::Address),
            3 => Ok(Call::Configure),
            4 => Ok(Call::Evaluate),
            5 => Ok(Call::Stop),
            6 => Ok(Call::SetDequeue),
            7 => Ok(Call::Reset),
            8 => Ok(Call::Doorbell),
            _ => Err(NoCall(number)),
        }
    }
}

// The call with this number. A number that no call has stands for the doorbell, as a loop takes it for its last call.
fn named(call: u64) -> Call {
    Call::try_from(call).unwrap_or(Call::Doorbell)
}

const PLACE: Dequeue = Dequeue {
    pointer: 12288,
    cycle: true,
};

const NOTHING_FOUND: Look = Look {
    found: false,
    pointer: 12288,
    cycle: true,
};

// ---- the loop

// How a loop runs: n turns from the table of `stage`. `zero` is 0, which the compiler cannot know: no turn can begin before the one in front of it has answered.
#[derive(Clone, Copy)]
pub struct Run {
    pub n: u64,
    pub stage: u64,
    pub zero: u64,
}

impl Run {
    // Each turn is one call, which is given 0 and begins from the start again. It writes its outcome over the last one: handed back, it took a copy more.
    fn turns<F: FnMut(&mut Outcome, u64)>(self, start: Table, mut call: F) -> u64
        requires { F.IsAlwaysCallable call }
    {
        let mut last = Outcome {
            table: start,
            answer: scan::answer(0),
        };
        let mut a: u64 = 0;
        for _ in 0..self.n {
            call(&mut last, a & self.zero);
            a = guest::address::plus(a, last.answer.code);
        }
        stages::summed(last.table, a)
    }
}

pub fn bench_enable(mem: &mut [u8], run: Run) -> u64 {
    let start = stages::life(mem, run.stage);
    run.turns(
        start,
        |last, zero| *last = slot_manager::enable_slot(Table {
            dcbaap: zero,
            ..start
        }),
    )
}

// Disable Slot or Reset Device.
pub fn bench_slot(mem: &mut [u8], run: Run, call: u64, id: u64) -> u64 {
    let start = stages::life(mem, run.stage);
    match named(call) {
        Call::Disable => run.turns(
            start,
            |last, zero| *last = slot_manager::disable_slot(start, mem, id | zero),
        ),
        _ => run.turns(
            start,
            |last, zero| *last = slot_manager::reset_device(start, mem, id | zero),
        ),
    }
}

// Address Device, Configure Endpoint or Evaluate Context. The flag is BSR or DC.
pub fn bench_context(mem: &mut [u8], run: Run, call: u64, pointer: u64, flag: u64) -> u64 {
    let start = stages::life(mem, run.stage);
    let flag = flag != 0;
    match named(call) {
        Call::Address => run.turns(
            start,
            |last, zero| *last = slot_manager::address_device(start, mem, 1, pointer | zero, flag),
        ),
        Call::Configure => run.turns(
            start,
            |last, zero| *last = slot_manager::configure_endpoint(
                start,
                mem,
                1,
                pointer | zero,
                flag,
            ),
        ),
        _ => run.turns(
            start,
            |last, zero| *last = slot_manager::evaluate_context(start, mem, 1, pointer | zero),
        ),
    }
}

// Stop Endpoint, Set Dequeue or a doorbell.
pub fn bench_endpoint(mem: &mut [u8], run: Run, call: u64, id: u64, i: u64) -> u64 {
    let start = stages::life(mem, run.stage);
    match named(call) {
        Call::Stop => run.turns(
            start,
            |last, zero| *last = slot_manager::stop_endpoint(start, mem, id | zero, i),
        ),
        Call::SetDequeue => run.turns(
            start,
            |last, zero| *last = slot_manager::set_dequeue(start, mem, id | zero, i, PLACE),
        ),
        _ => run.turns(
            start,
            |last, zero| *last = slot_manager::doorbell(start, mem, id | zero, i, NOTHING_FOUND),
        ),
    }
}

pub fn bench_doorbell_stop(mem: &mut [u8], run: Run, id: u64, i: u64) -> u64 {
    let start = stages::life(mem, run.stage);
    run.turns(start, |last, zero| {
        let slot = id | zero;
        let rung = slot_manager::doorbell(start, mem, slot, i, NOTHING_FOUND);
        *last = slot_manager::stop_endpoint(rung.table, mem, slot, i);
    })
}

// Enable Slot without the scan. It has a frame of its own: in `bench_formed`'s its two tables lie so that each copy waits for the one before.
#[inline(never)]
fn enable_formed(start: &Table, run: Run) -> u64
    requires { well_formed start.now ≡ true }
{
    run.turns(*start, |last, _| *last = registers::enable_slot(*start))
}

// Enable Slot, Evaluate Context with x as the pointer, Stop Endpoint or a doorbell to endpoint i of slot x, without the scan: the start is found well formed once.
pub fn bench_formed(mem: &mut [u8], run: Run, call: u64, x: u64, i: u64) -> u64 {
    let start = stages::life(mem, run.stage);
    let Ok(()) = scan::checks(start, mem.len() as u64) else {
        return 0;
    };
    match named(call) {
        Call::Enable => enable_formed(&start, run),
        Call::Disable | Call::Address | Call::Configure | Call::Evaluate => {
            run.turns(
                start,
                |last, zero| *last = formed::evaluate_context(start, mem, 1, x | zero),
            )
        }
        Call::Stop => run.turns(
            start,
            |last, zero| *last = formed::stop_endpoint(start, mem, x | zero, i),
        ),
        _ => run.turns(
            start,
            |last, zero| *last = formed::doorbell(start, mem, x | zero, i, NOTHING_FOUND),
        ),
    }
}
