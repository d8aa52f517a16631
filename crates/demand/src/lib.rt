// Lists of calls on a running store, and demand 3: the claim and its theorem. No function.
#![tactic(auto)]
