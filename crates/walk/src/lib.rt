// What the proofs by hand above the core share: names and laws of a walk over a function's MIR (proofs/). The crate has no code.
#![tactic(auto)]
