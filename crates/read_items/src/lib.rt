// The items of a seal, read one after another by a cursor (document 01, "Reader").
#![tactic(auto)]

mod cursor;

pub use cursor::{Broken, Cursor, Refusal};
