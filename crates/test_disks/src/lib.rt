//! Examples of journals, sites on a disk and inputs that are served, over public calls alone, also where memory is refused or
//! the disk stops. The crate has tests and nothing else.
#![tactic(auto)]

/// Journals in files of a directory.
#[cfg(test)]
mod files;
/// Sites on a disk in memory.
#[cfg(test)]
mod homes;
/// Inputs that are served.
#[cfg(test)]
mod inputs;
/// Journals in memory.
#[cfg(test)]
mod journals;
/// Inputs that are served over openings.
#[cfg(test)]
mod openings;
