// A test vector: what it is of, and the digest that came out.
ghost use Rattle.std.specs.Prelude.{◌≡◌, Some};
ghost use Rattle.digest.specs.Hmac.{hmac_sha256};
ghost use Rattle.digest.specs.Sha256.{sha256};
ghost use Rattle.vectors.specs.Lines.{line_of, vector_shown};

use digest::{Digest, hmac_sha256, sha256};
use std::fmt;

#[derive(Clone, Copy)]
pub struct Vector<'a> {
    label: &'a str,
    digest: Digest,
}

impl<'a> Vector<'a> {
    pub fn new(label: &'a str, digest: Digest) -> Vector<'a>
        ensures { vector_shown result ≡ line_of label.now digest.bytes }
    {
        Vector { label, digest }
    }

    pub fn of_message(label: &'a str, message: &[u8]) -> Vector<'a>
        ensures { vector_shown result ≡ line_of label.now (sha256 message.now) }
    {
        Vector::new(label, sha256(message))
    }

    pub fn of_seal(label: &'a str, key: &[u8; 32], message: &[u8]) -> Vector<'a>
        ensures { vector_shown result ≡ line_of label.now (hmac_sha256 key.now message.now) }
    {
        Vector::new(label, hmac_sha256(key, message))
    }
}

impl fmt::Display for Vector<'_> {
    ghost output = { λ v. Some (vector_shown v) };

    fn fmt<W: fmt::Write>(&self, f: &mut fmt::Formatter<W>) -> fmt::Result {
        let label = self.label;
        let digest = self.digest;
        write!(f, "{label}: {digest}")
    }
}
