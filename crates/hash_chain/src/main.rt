// Hashes 64 MiB in messages of 363 bytes, each beginning with the digest of the one before it, and prints
// the last digest.
#![tactic(auto)]

ghost use Rattle.std.specs.Prelude.{◌≡◌, ◌++◌};
ghost use Rattle.hash_chain.specs.Chain.{zeros, chained};

use digest::{Digest, sha256};
use std::io;

const COUNT: usize = 184_873;

const MESSAGE_LEN: usize = 363;

// The digest, and zeros behind it.
#[tactic(auto, unfolding(crate::specs::Chain::zeros))]
pub fn message_of(before: &Digest) -> [u8; MESSAGE_LEN]
    ensures { result ≡ before.now.bytes ++ zeros 331 }
{
    let mut message = [0; MESSAGE_LEN];
    let bytes = before.as_bytes();
    message[..bytes.len()].copy_from_slice(bytes);
    message
}

// The last digest of so many messages, the first of which is all zeros.
#[tactic(auto, unfolding(crate::specs::Chain::chained, crate::specs::Chain::zeros))]
pub fn last_of(count: usize) -> Digest
    ensures { result.bytes ≡ chained count }
{
    let mut digest = Digest::new([0; 32]);
    for _i in 0..count {
        digest = sha256(&message_of(&digest));
    }
    digest
}

fn main(rt: HostRuntime) -> io::Result<()> {
    let count = COUNT;
    let digest = last_of(count);
    println!(rt; "{count} messages of 363 bytes: {digest}")
}
