//! What a site says of a packet that it took.

/// A packet was taken.
#[derive(Clone, Copy, PartialEq, Eq, Debug)]
pub struct Taken {
    /// Whether the packet had anything new: whether the site's version grew.
    pub grew: bool,
}
