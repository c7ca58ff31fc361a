//! Examples of sites that run at the same time, over public calls alone: seats and their calls, gates at which calls of two
//! threads meet, many threads at once, and scripts. The crate has tests and nothing else.
#![tactic(auto)]

/// Journals and claims that are settled, and the same with one thing altered, or two, which are not.
#[cfg(test)]
mod altered;
/// What stands behind the locks, of which contracts know nothing.
#[cfg(test)]
mod behind_locks;
/// Entries of journals, and their claims.
#[cfg(test)]
mod entries;
/// Scripts where memory may be refused.
#[cfg(test)]
mod growths;
/// Scripts whose sites run at the same time.
#[cfg(test)]
mod live;
/// Many threads at once: at each of four sites four users and one taking thread.
#[cfg(test)]
mod many;
/// Federations where memory may be refused.
#[cfg(test)]
mod memory;
/// One seat at a federation of two sites.
#[cfg(test)]
mod one_seat;
/// Readers and writers that fail, are interrupted or give little at a time.
#[cfg(test)]
mod streams;
/// Two seats, of two threads.
#[cfg(test)]
mod two_seats;
