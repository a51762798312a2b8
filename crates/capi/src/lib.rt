// The C face: every public call of the base under a plain name, for programs in C and Rust, to which `capi_c` exports it.
// Answers go back as structs by value. Each call is one line over the call beneath it, promises what that promises, seen
// through the structs of `face`, `face_seals`, `face_why` and `face_walk`, and asks nothing of its caller.
#![tactic(auto)]

mod numbers;
mod seals;
mod signatures;
mod telling;
mod text;
mod walking;

pub use numbers::{fr_date_from_number, fr_date_to_number, fr_integer_read, fr_integer_write};
pub use seals::{fr_judge, fr_read, fr_why, fr_write};
pub use signatures::{fr_hash, fr_signature_to_der, fr_signature_to_raw};
pub use telling::{fr_item_name, fr_rule_words, fr_words};
pub use text::{fr_c40_read, fr_c40_write};
pub use walking::{fr_shown, fr_walk_next, fr_walk_open};
