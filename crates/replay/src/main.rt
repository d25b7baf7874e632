// Replays a recorded session: records of 32 bytes on standard input, and a line on standard output for each call. docs/TRACE.md has the records' layout.
#![tactic(auto)]

use std::io;

fn main(rt: HostRuntime) -> io::Result<()> {
    player::replay(&mut rt.stdin(), &mut io::writer(&rt))
}
