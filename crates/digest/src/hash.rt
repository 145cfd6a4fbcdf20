// SHA-256 of messages of any length.
ghost use Rattle.std.specs.Prelude.{◌≡◌, ◌+◌, ◌-◌, ◌*◌, ◌%◌, ◌^◌, ◌<◌, ◌≤◌, ◌++◌, ◌∷◌, length, take, replicate};
ghost use Rattle.digest.specs.Hmac.{filled};
ghost use Rattle.digest.specs.Sha256.{be32, be64, bytes_of, padding, whole, digest_from, sha256};

use crate::Digest;
use crate::compression::{BLOCK_LEN, START, compress};

// The longest rest of a message that has its padding in the same block.
const LONGEST_IN_ONE: usize = 55;

// The hash value after every whole block of these bytes.
pub(crate) fn absorb(first: [u32; 8], blocks: &[u8]) -> [u32; 8]
    ensures { result ≡ whole first blocks.now }
{
    let mut s = first;
    for block in blocks.as_chunks::<BLOCK_LEN>().0 {
        let next = compress(s, block);
        s = next;
    }
    s
}

// The bytes, with zeros up to a block.
#[tactic(auto, using(crate::proofs::Padding::filled_up))]
pub(crate) fn zero_filled(front: &[u8]) -> [u8; BLOCK_LEN]
    requires { length front.now ≤ 64 }
    ensures { result ≡ filled front.now }
{
    let mut block = [0; BLOCK_LEN];
    block[..front.len()].copy_from_slice(front);
    block
}

// A block that begins with the rest of a message and the bit behind it.
#[tactic(auto, using(crate::proofs::Padding::marked))]
fn marked(rest: &[u8]) -> [u8; BLOCK_LEN]
    requires { length rest.now < 64 }
    ensures { result ≡ rest.now ++ (0x80 ∷ replicate (63 - length rest.now) 0) }
{
    let mut block = zero_filled(rest);
    block[rest.len()] = 0x80;
    block
}

// The block with its last eight bytes replaced by the length of a message in bits.
#[tactic(auto, using(crate::proofs::Padding::ended))]
fn ended(block: [u8; BLOCK_LEN], len: u64) -> [u8; BLOCK_LEN]
    ensures { result ≡ take 56 block ++ be64 ((len * 8) % 2 ^ 64) }
{
    let mut last = block;
    let bits = len.wrapping_mul(8).to_be_bytes();
    last[BLOCK_LEN - bits.len()..].copy_from_slice(&bits);
    last
}

// The hash value after the last block of a message, or the last two: the rest behind its whole blocks, and
// the padding.
#[tactic(auto, using(crate::proofs::Padding::one_block, crate::proofs::Padding::two_blocks))]
fn absorb_last(s: [u32; 8], rest: &[u8], len: u64) -> [u32; 8]
    requires short { length rest.now < 64 }
    requires left { length rest.now ≡ len % 64 }
    ensures { result ≡ whole s (rest.now ++ padding len) }
{
    let block = marked(rest);
    if rest.len() > LONGEST_IN_ONE {
        let next = compress(s, &block);
        compress(next, &ended([0; BLOCK_LEN], len))
    } else {
        compress(s, &ended(block, len))
    }
}

// A word's bytes, the highest first.
fn word_bytes(word: u32) -> [u8; 4]
    ensures { result ≡ be32 word }
{
    word.to_be_bytes()
}

fn to_bytes(s: [u32; 8]) -> [u8; 32]
    ensures { result ≡ bytes_of s }
{
    let words = s.map(word_bytes);
    let mut bytes = [0; 32];
    bytes.copy_from_slice(words.as_flattened());
    bytes
}

// The digest of a message of which some whole blocks, `before` bytes, have led to the hash value `s`.
#[tactic(auto, using(crate::proofs::Padding::finished), unfolding(crate::specs::Sha256::digest_from))]
pub(crate) fn finish(s: [u32; 8], before: u64, message: &[u8]) -> Digest
    requires { before % 64 ≡ 0 }
    ensures { result.bytes ≡ digest_from s before message.now }
{
    let state = absorb(s, message);
    let rest = message.as_chunks::<BLOCK_LEN>().1;
    // A length always fits; the library has no `From` for it.
    let len = before.wrapping_add(message.len() as u64);
    let last = absorb_last(state, rest, len);
    Digest::new(to_bytes(last))
}

// SHA-256.
#[tactic(auto, using(crate::proofs::Blocks::sha256_from), unfolding(crate::specs::Sha256::start))]
pub fn sha256(message: &[u8]) -> Digest
    ensures { result.bytes ≡ sha256 message.now }
{
    finish(START, 0, message)
}
