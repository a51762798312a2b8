// What the length of the hopeful front part says of a refusal's place (document 02, Ticket 12): specs alone.
#![tactic(auto)]
