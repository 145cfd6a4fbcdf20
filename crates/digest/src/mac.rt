// HMAC-SHA-256, under keys of 32 bytes.
ghost use Rattle.std.specs.Prelude.{◌≡◌, ◌++◌};
ghost use Rattle.digest.specs.Hmac.{key_block, hmac_sha256};
ghost use Rattle.digest.specs.Sha256.{sha256};

use crate::Digest;
use crate::compression::{BLOCK_LEN, START};
use crate::hash::{absorb, finish, zero_filled};

const INNER_PAD: u8 = 0x36;

const OUTER_PAD: u8 = 0x5c;

// The key, with zeros up to a block, each byte xored with the pad.
fn padded_key(key: &[u8; 32], pad: u8) -> [u8; BLOCK_LEN]
    ensures { result ≡ key_block pad key.now }
{
    zero_filled(key).map(|byte| byte ^ pad)
}

// The digest of the padded key and then the message.
#[tactic(auto, using(crate::proofs::Blocks::sha256_after), unfolding(crate::specs::Sha256::start))]
fn keyed(key: &[u8; 32], pad: u8, message: &[u8]) -> Digest
    ensures { result.bytes ≡ sha256 (key_block pad key.now ++ message.now) }
{
    let block = padded_key(key, pad);
    let s = absorb(START, &block);
    finish(s, BLOCK_LEN as u64, message)
}

// HMAC-SHA-256.
#[tactic(auto, unfolding(crate::specs::Hmac::hmac_sha256))]
pub fn hmac_sha256(key: &[u8; 32], message: &[u8]) -> Digest
    ensures { result.bytes ≡ hmac_sha256 key.now message.now }
{
    let inner = keyed(key, INNER_PAD, message);
    keyed(key, OUTER_PAD, inner.as_bytes())
}
