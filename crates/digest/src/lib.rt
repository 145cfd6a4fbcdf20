// Digests and seals: SHA-256 and HMAC-SHA-256.
#![tactic(auto)]

ghost use Rattle.std.specs.Prelude.{◌≡◌, length};

mod compression;
pub mod examples;
mod hash;
mod mac;
mod value;

pub use hash::sha256;
pub use mac::hmac_sha256;

// The 32 bytes that name a text, or seal one.
#[derive(Clone, Copy, PartialEq, Eq)]
pub struct Digest {
    bytes: [u8; 32],
    ghost whole: { length bytes ≡ 32 },
}
