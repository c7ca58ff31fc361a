//! Examples of replicas, worlds and sites by themselves, over public calls alone, also where memory is refused. The crate has
//! tests and nothing else.
#![tactic(auto)]

/// A chart of what has no plan.
#[cfg(test)]
mod charts;
/// The library as docs/LIBRARY.md shows it.
#[cfg(test)]
mod library;
/// The last counter.
#[cfg(test)]
mod limits;
/// Replicas, and what they hold of others.
#[cfg(test)]
mod replicas;
/// Worlds by the lines of scripts, and the texts of their packets.
#[cfg(test)]
mod scripts;
/// Sites by themselves.
#[cfg(test)]
mod sites;
/// Worlds of two sites.
#[cfg(test)]
mod worlds;
