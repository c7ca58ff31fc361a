//! The public names of each crate, imported from the crate that has them and used once as a caller would: a name that goes,
//! moves or takes other arguments is found here. The crate has tests and nothing else.
#![tactic(auto)]

/// Boards, deltas, packets, grants, words, plans and listings.
#[cfg(test)]
mod boards;
/// Replicas, worlds, federations and scripts.
#[cfg(test)]
mod runs;
/// Values that merge, and jobs as kept.
#[cfg(test)]
mod values;
