// Demand 3: agreement of the boards after every fair list of calls, and of the synchronous session. There is no code: specs/ has what is claimed,
// proofs/ its proof.
#![tactic(auto)]
