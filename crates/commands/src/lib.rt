// The commands but Address Device, once 198, 194 and 11 are past: each on a well-formed table, over memory of its length, and for a slot that was found.
// `pointer` is the input context pointer. A refusal gives the table back as it was, and has stored nothing.
// Each asks `Opened t mem id slot`, or the part of it that it needs, in a clause, and takes table, memory, id and slot apart: docs/CLAIMS.md names them so.
#![tactic(auto)]

pub mod configure;
pub mod device;
pub mod outcome;
pub mod reach;
