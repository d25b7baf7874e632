// A call of the slot manager, tried on a table and a memory, and what is written of it.
#![tactic(auto)]

pub mod attempt;
pub mod record;
pub mod setting;
pub mod sums;
