// Bits to characters and back (01, Characters on the wire), in place on the words that the caller keeps.
#![tactic(auto)]

mod bits;
pub mod decoder;
pub mod encoder;
mod good_words;
mod phases;
pub mod reports;
