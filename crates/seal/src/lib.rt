// The tender's conditions of acceptance, as theorems over grammar, reader and writer: see specs/Conditions.antt.
#![tactic(auto)]
