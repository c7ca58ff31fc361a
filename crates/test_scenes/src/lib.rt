//! Worked scenes of what is settled and what is retired, beside those of `fed_theory`: runs whose outcomes the definitions
//! compute. They are in `proofs/`, and the prover computes them again. An edit of a definition has to make one come out
//! otherwise.
#![tactic(auto)]

/// Does nothing: a crate has a function.
pub fn scenes_are_computed() {}
