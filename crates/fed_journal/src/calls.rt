//! Calls on a file, each with its answer. Clauses alone read them, and they take no memory.
ghost use Rattle.std.specs.Prelude.{◌≡◌, ℕ, [], ◌∷◌, Ok, Vec};
ghost use Rattle.std.specs.declared.alloc.Global.{Global};

use http_server::Log;
use std::io;

/// A call on a file.
#[derive(Drop)]
pub enum Call {
    /// The disk has these bytes, and a read gives them.
    Found { bytes: Vec<u8> },
    /// A write at an offset.
    Wrote { at: usize, bytes: Vec<u8> },
    /// A cut to a length.
    Resized { len: usize },
    /// A sync.
    Flushed,
    /// A file with these bytes, which the disk has, in the place of this one.
    Replaced { bytes: Vec<u8> },
    /// A call that changed nothing.
    Refused,
}

/// The calls so far, the oldest first, each with the error where it failed.
pub(crate) type Calls = Log<Call, io::Result<()>>;

impl Call {
    /// The bytes that were found.
    fn into_found(self) -> Vec<u8>
        requires { (bytes : Vec ℕ Global) × (self ≡ Call.Found bytes) }
        ensures { self ≡ Call.Found result }
    {
        match self {
            Call::Found { bytes } => bytes,
            Call::Wrote {
                at: _at,
                bytes: _bytes,
            } => unreachable!(),
            Call::Resized { len: _len } => unreachable!(),
            Call::Flushed => unreachable!(),
            Call::Replaced { bytes: _bytes } => unreachable!(),
            Call::Refused => unreachable!(),
        }
    }
}

/// Notes what was found in a file, as the first of its calls, and gives it back.
pub(crate) fn note_found(bytes: Vec<u8>) -> (Calls, Vec<u8>)
    ensures noted { result.0.items ≡ (Call.Found bytes, Ok tt) ∷ [] }
    ensures same { result.1 ≡ bytes }
{
    let found = Call::Found { bytes };
    let calls = Log::new().and(&found, &Ok(()));
    (calls, found.into_found())
}
