//! Examples of tables, records, boards, plans, words and packet text, over public calls alone: each call that allocates is
//! compared with an answer from outside, with ample memory and, by tests/failed_allocations, with each request refused. The
//! crate has tests and nothing else.
#![tactic(auto)]

/// Boards and deltas.
#[cfg(test)]
mod boards;
/// Texts of packets in format 1, also cut and changed.
#[cfg(test)]
mod format_one;
/// The laws of values that merge, four deep.
#[cfg(test)]
mod laws;
/// Listings of jobs that are named twice.
#[cfg(test)]
mod listings;
/// Machines and moments that are refused.
#[cfg(test)]
mod machines;
/// Boards of two sites, merged.
#[cfg(test)]
mod merges;
/// Texts of packets.
#[cfg(test)]
mod packets;
/// Machines, plans and listings.
#[cfg(test)]
mod plans;
/// Sets of counters that are kept as ranges, and what one site has retired.
#[cfg(test)]
mod ranges;
/// Records of jobs.
#[cfg(test)]
mod records;
/// Rosters that are refused.
#[cfg(test)]
mod rosters;
/// Tables and tag sets.
#[cfg(test)]
mod tables;
/// Words and what they ask.
#[cfg(test)]
mod words;
