// That the judging stops at its true reason: the rules of crates/rules against the reader's own definition. All of it stands in specs/.
#![tactic(auto)]
