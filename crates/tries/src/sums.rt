// Checksums over every field of a table and over every byte of memory, so that a change of either shows.
use crate::record::Record;
use definition::Table;
use std::fmt;

// A sum with 32 bits more: sum times 16777619, plus the bits, modulo the prime 4294967291.
fn half(sum: u64, bits: u64) -> u64 {
    let s = sum % 4294967291;
    let b = bits % 4294967296;
    (s * 16777619 + b) % 4294967291
}

// A sum with a number more, its low half first.
fn whole(sum: u64, n: u64) -> u64 {
    half(half(sum, n), n / 4294967296)
}

fn numbers(sum: u64, ns: [u64; 3]) -> u64 {
    ns.into_iter().fold(sum, whole)
}

fn records<R: Record>(sum: u64, rs: &[R]) -> u64 {
    rs.iter().fold(sum, |n, r| numbers(n, r.numbers()))
}

pub fn table(t: &Table) -> u64 {
    let n = numbers(0, [t.limit, t.length, t.dcbaap]);
    records(records(n, &t.slots), &t.endpoints)
}

pub fn memory(mem: &[u8]) -> u64 {
    mem.iter().fold(0, |n, b| half(n, u64::from(*b)))
}

#[derive(Clone, Copy, PartialEq, Eq)]
pub(crate) struct Sums {
    table: u64,
    memory: u64,
}

impl Sums {
    pub(crate) fn of(t: &Table, mem: &[u8]) -> Self {
        Sums {
            table: table(t),
            memory: memory(mem),
        }
    }
}

impl fmt::Display for Sums {
    fn fmt<W: fmt::Write>(&self, f: &mut fmt::Formatter<W>) -> fmt::Result {
        write!(f, "{} {}", self.table, self.memory)
    }
}
