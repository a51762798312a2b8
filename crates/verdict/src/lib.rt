// The verdict on every byte string, item by item (document 01, "Reader"). All of it stands in specs/; the code that
// gives it is in the crates above.
#![tactic(auto)]
