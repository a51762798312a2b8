// How far features and signature can be completed (document 02, Ticket 12): specs alone, over the grammar.
#![tactic(auto)]
