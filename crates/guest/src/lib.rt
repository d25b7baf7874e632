// Guest memory: addresses, reads and stores of bytes, words and contexts, and the bits of a word.
// Memory is a lent slice of bytes. Nothing here is answered by a code: a range that does not lie in memory is `None`.
#![tactic(auto)]

pub mod address;
pub mod bits;
pub mod context;
pub mod words;
