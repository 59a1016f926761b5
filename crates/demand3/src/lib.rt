// No code: the definition of the check on bytes and buffers, and demand 3 as one theorem.
#![tactic(auto)]
