// The line of what is tried or looked at: what is expected, what came, and whether they are the same.
use std::fmt::Display;
use std::io;
use std::io::Write;

pub fn compare<W: Write, T: Display + PartialEq + Drop>(
    out: &mut W,
    case: u64,
    what: impl Display + Drop,
    expected: T,
    came: T,
) -> io::Result<()> {
    let verdict = if expected == came {
        "same"
    } else {
        "different"
    };
    writeln!(
        out,
        "case {case} {what}: expected {expected} came {came} {verdict}"
    )
}
