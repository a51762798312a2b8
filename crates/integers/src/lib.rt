// Single DER INTEGERs over the signed 64-bit range (document 01, Signatures; X.690, 8.3): what the calls on them answer stands in
// specs/Calls.antt. `integers_read` reads, `integers_write` writes.
#![tactic(auto)]

// The error of bytes that are not one whole INTEGER of 1 to 8 bytes: 65, by `reading_of` of specs/Calls.antt.
#[derive(Clone, Copy, Debug, PartialEq, Eq)]
pub struct NotOne;
