// The cases that document 01 marks to be proved, all of them, as one list under one statement: specs/Cases.antt.
#![tactic(auto)]
