//! The identifiers of a packet's jobs or reservations, as they are read.
ghost use Rattle.std.specs.Prelude.{◌≡◌, ◌<◌, ◌++◌, [], ◌∷◌, List, IsTrue, slice_index};
ghost use Rattle.fed_stamp.specs.Stamp.{StampValue};
ghost use Rattle.fed_wire.specs.Identifiers.{AreKept};
ghost use Rattle.fed_wire.specs.Packet.{may_stand};

use fed_stamp::{SITES, Stamp};

/// Of the identifiers read so far the last, and how many each site gave.
#[derive(Clone, Copy)]
pub(crate) struct Identifiers {
    last: Option<Stamp>,
    counts: [u64; SITES],
}

impl Identifiers {
    /// No identifier.
    pub(crate) fn new() -> Identifiers
        ensures { AreKept result [] }
    {
        Identifiers {
            last: None,
            counts: [0; SITES],
        }
    }

    // Whether the identifier may stand after those before it, of which an origin may give so many.
    fn may_stand(&self, room: u64, id: Stamp) -> bool
        ensures stands { (ids : List StampValue) → AreKept self.now ids → result ≡ may_stand room ids id }
        ensures room { IsTrue result → slice_index self.now.counts id.site < room }
    {
        let follows = match self.last {
            Some(last) => last < id,
            None => true,
        };
        follows && self.counts[id.site().get() as usize] < room
    }

    /// Keeps the identifier where it may stand after those before it, of which an origin may give so many, and tells
    /// whether it may.
    pub(crate) fn admit(&mut self, room: u64, id: Stamp) -> bool
        ensures admitted { (ids : List StampValue) → AreKept self.old ids → result ≡ may_stand room ids id }
        ensures kept { IsTrue result → (ids : List StampValue) → AreKept self.old ids → AreKept self.new (ids ++ id ∷ []) }
    {
        if !self.may_stand(room, id) {
            return false;
        }
        self.counts[id.site().get() as usize] += 1;
        self.last = Some(id);
        true
    }
}
