// No code: the statements of specs/ and their proofs, over the definitions of model.
#![tactic(auto)]
