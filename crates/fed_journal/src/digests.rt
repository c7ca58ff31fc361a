//! Digests of entries. An entry's digest is the first sixteen hexadecimal digits of the SHA-256 of the digest before it and
//! the entry's text.
ghost use Rattle.std.specs.Prelude.{◌≡◌};
ghost use Rattle.fed_journal.specs.Lines.{digest_of};

use sha2::{Digest as _, Sha256};

/// How many digits a digest has.
pub const DIGEST_BYTES: usize = 16;

/// A digest, by its hexadecimal digits.
pub type Digest = [u8; DIGEST_BYTES];

/// What stands for a digest before the first entry.
pub const FIRST_DIGEST: Digest = [b'0'; DIGEST_BYTES];

/// The digest of an entry with this text, behind an entry with that digest.
#[tactic(auto, unfolding(crate::specs::Lines::digest_of))]
pub(crate) fn digest_after(before: &Digest, text: &[u8]) -> Digest
    ensures { result ≡ digest_of before.now text.now }
{
    let mut hasher = Sha256::new();
    hasher.update(before);
    hasher.update(text);
    let bytes = hasher.finalize();
    let mut digest = FIRST_DIGEST;
    let _ = hex::encode_to_slice(&bytes[..DIGEST_BYTES / 2], &mut digest);
    digest
}
