// How far a seal can be completed (document 02, Ticket 12): specs alone, over the grammar.
#![tactic(auto)]
