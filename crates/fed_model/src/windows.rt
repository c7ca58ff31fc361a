//! When and where a reservation keeps nodes.
use fed_stamp::SiteId;

/// Nodes of a site that are kept free from the second `start` on to the second before `end`.
///
/// A window that a Reserve is accepted with has an end above its start and of at most `MAX_MOMENT`, and from 1 to
/// `MAX_NODES` nodes. The type itself doesn't keep this, since a window that somebody asks for may be another: such a
/// one is refused with `Refusal::BadWindow`.
#[derive(Clone, Copy, PartialEq, Eq, PartialOrd, Ord, Debug)]
pub struct Window {
    /// The site whose nodes are kept free.
    pub site: SiteId,
    /// The second at which the window starts, which is counted.
    pub start: u64,
    /// The second at which the window ends, which is not counted.
    pub end: u64,
    /// How many nodes are kept free.
    pub nodes: u64,
}
