// Short sessions, each in a file of its own, replayed one after the other as `replay` does it: the file's name, and the lines.
// tests/make_replay.py writes the files, and what has to come.
#![tactic(auto)]

use std::io::Write;
use std::rt::Files;
use std::{fs, io};

// Replayed to the end.
const WHOLE: [&str; 5] = ["empty", "enable", "limits", "last_byte", "hand"];

// Ended by a bad record.
const BROKEN: [&str; 7] = [
    "parts", "short", "one_byte", "kind_0", "kind_19", "byte_4", "byte_31",
];

// With a field that is due zero.
const UNUSED: [&str; 6] = [
    "unused_slot",
    "unused_endpoint",
    "unused_flag",
    "unused_bit",
    "unused_pointer",
    "unused_value",
];

// With a number that is too large.
const LARGE: [&str; 2] = ["value_256", "store_65536"];

fn session(rt: &(impl Files + Print), name: &str) -> io::Result<()> {
    let mut out = io::writer(rt);
    writeln!(out, "{name}:")?;
    player::replay(&mut fs::open(rt, name)?, &mut out)
}

fn sessions(rt: &(impl Files + Print), names: &[&str]) -> io::Result<()> {
    for name in names {
        session(rt, name)?;
    }
    Ok(())
}

fn main(rt: HostRuntime) -> io::Result<()> {
    for names in [&WHOLE[..], &BROKEN[..], &UNUSED[..], &LARGE[..]] {
        sessions(&rt, names)?;
    }
    Ok(())
}
