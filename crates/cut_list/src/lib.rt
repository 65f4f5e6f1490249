// Fair lists of calls on cut trees: one after which roots are unequal, and one in which a root stays. There is no code: specs/ has the lists,
// proofs/ shows that they are fair.
#![tactic(auto)]
