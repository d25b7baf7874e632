// The loops of `bench`, exported to C under their names (bench/driver.c declares them). Each has a run's three numbers one by one, as C passes them.
#![tactic(auto)]

use bench::Run;

#[unsafe(no_mangle)]
pub extern "C" fn bench_enable(mem: &mut [u8], n: u64, stage: u64, zero: u64) -> u64 {
    bench::bench_enable(mem, Run { n, stage, zero })
}

#[unsafe(no_mangle)]
pub extern "C" fn bench_slot(
    mem: &mut [u8],
    n: u64,
    stage: u64,
    call: u64,
    id: u64,
    zero: u64,
) -> u64 {
    bench::bench_slot(mem, Run { n, stage, zero }, call, id)
}

#[unsafe(no_mangle)]
pub extern "C" fn bench_context(
    mem: &mut [u8],
    n: u64,
    stage: u64,
    call: u64,
    pointer: u64,
    flag: u64,
    zero: u64,
) -> u64 {
    bench::bench_context(mem, Run { n, stage, zero }, call, pointer, flag)
}

#[unsafe(no_mangle)]
pub extern "C" fn bench_endpoint(
    mem: &mut [u8],
    n: u64,
    stage: u64,
    call: u64,
    id: u64,
    i: u64,
    zero: u64,
) -> u64 {
    bench::bench_endpoint(mem, Run { n, stage, zero }, call, id, i)
}

#[unsafe(no_mangle)]
pub extern "C" fn bench_doorbell_stop(
    mem: &mut [u8],
    n: u64,
    stage: u64,
    id: u64,
    i: u64,
    zero: u64,
) -> u64 {
    bench::bench_doorbell_stop(mem, Run { n, stage, zero }, id, i)
}

#[unsafe(no_mangle)]
pub extern "C" fn bench_formed(
    mem: &mut [u8],
    n: u64,
    stage: u64,
    call: u64,
    x: u64,
    i: u64,
    zero: u64,
) -> u64 {
    bench::bench_formed(mem, Run { n, stage, zero }, call, x, i)
}
