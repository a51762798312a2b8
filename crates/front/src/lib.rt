// The front part of some bytes with which an accepted seal begins (document 02, Ticket 12): specs alone, over the grammar.
#![tactic(auto)]
