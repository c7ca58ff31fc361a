//! Formats of packets.

/// A format of packets. The first knows no accounts and no terms of grants.
#[derive(Clone, Copy, PartialEq, Eq, Debug)]
pub enum Format {
    /// Fields of a job without an account, grants without a term: read, never written.
    One,
    /// Accounts and terms too: read and written.
    Two,
}
