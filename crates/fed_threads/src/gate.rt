//! What is called inside a site's lock, so that a caller can hold a thread there.
use fed_stamp::SiteId;

/// Something that is told of each command while its site's lock is held, as a test is that wants calls to meet.
pub trait Gate: Drop {
    /// A command is inside, which is to have this place in the site's journal, counted from 0.
    fn inside(&self, site: SiteId, index: u64);
}

/// A gate that does nothing.
#[derive(Clone, Copy, Debug)]
pub struct OpenGate;

impl Gate for OpenGate {
    fn inside(&self, _site: SiteId, _index: u64) {}
}
