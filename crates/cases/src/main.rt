// The cases that the scope document checked by hand, starred and not, as calls of the slot manager.
// A line has: the case, what is tried or looked at, what the document expects, what came, and whether they are the same. An answer is its
// eight numbers.
// The file stdout was not made by a run: a script that holds the document's numbers, tests/make_cases.py, made it.
#![tactic(auto)]

mod machine;
mod show;

use machine::Machine;
use scripts::Script;
use std::io;
use std::io::{BufWriter, Write};

fn run<W: Write>(out: &mut W, script: &Script) -> io::Result<()> {
    writeln!(out, "{}", script.setting)?;
    let mut machine = Machine::new(script.setting);
    for act in script.acts {
        machine.perform(out, *act)?;
    }
    Ok(())
}

fn run_all<W: Write>(out: &mut W, scripts: &[Script]) -> io::Result<()> {
    for script in scripts {
        run(out, script)?;
    }
    Ok(())
}

fn main(rt: HostRuntime) -> io::Result<()> {
    let mut out = BufWriter::new(rt.alloc(), io::writer(&rt))?;
    scripts::all(|scripts| run_all(&mut out, &scripts))?;
    out.flush()
}
