// What document 01 asks of a seal's bytes, item by item and rule by rule, apart from any reader. All of it stands in specs/.
#![tactic(auto)]
