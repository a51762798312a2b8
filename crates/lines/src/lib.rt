// Building text in a lent buffer: a `Line` puts down bytes, words and numbers one after another, and tells the place after them.
#![tactic(auto)]

// In a module: by its path proofs tell the struct from the record `Line` that its buffer and place are told by (specs/Line.antt).
mod written;

pub use written::Line;
