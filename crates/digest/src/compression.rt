// The compression function of SHA-256: one block of 64 bytes more.
ghost use Rattle.std.specs.Prelude.{◌≡◌, ◌/◌, ◌^◌, ◌<◌, bit_xor};
ghost use Rattle.std.specs.Int.{rotate_right, w32};
ghost use Rattle.std.specs.List.{fold, zip};
ghost use Rattle.digest.specs.Sha256.{ch, maj, first_words, grown, round_of, rounds, sums, compressed};

use std::array;

pub(crate) const BLOCK_LEN: usize = 64;

// The initial hash value.
pub(crate) const START: [u32; 8] = [
    0x6a09e667, 0xbb67ae85, 0x3c6ef372, 0xa54ff53a, 0x510e527f, 0x9b05688c, 0x1f83d9ab, 0x5be0cd19,
];

const CONSTANTS: [u32; 64] = [
    0x428a2f98, 0x71374491, 0xb5c0fbcf, 0xe9b5dba5, 0x3956c25b, 0x59f111f1, 0x923f82a4, 0xab1c5ed5,
    0xd807aa98, 0x12835b01, 0x243185be, 0x550c7dc3, 0x72be5d74, 0x80deb1fe, 0x9bdc06a7, 0xc19bf174,
    0xe49b69c1, 0xefbe4786, 0x0fc19dc6, 0x240ca1cc, 0x2de92c6f, 0x4a7484aa, 0x5cb0a9dc, 0x76f988da,
    0x983e5152, 0xa831c66d, 0xb00327c8, 0xbf597fc7, 0xc6e00bf3, 0xd5a79147, 0x06ca6351, 0x14292967,
    0x27b70a85, 0x2e1b2138, 0x4d2c6dfc, 0x53380d13, 0x650a7354, 0x766a0abb, 0x81c2c92e, 0x92722c85,
    0xa2bfe8a1, 0xa81a664b, 0xc24b8b70, 0xc76c51a3, 0xd192e819, 0xd6990624, 0xf40e3585, 0x106aa070,
    0x19a4c116, 0x1e376c08, 0x2748774c, 0x34b0bcb5, 0x391c0cb3, 0x4ed8aa4a, 0x5b9cca4f, 0x682e6ff3,
    0x748f82ee, 0x78a5636f, 0x84c87814, 0x8cc70208, 0x90befffa, 0xa4506ceb, 0xbef9a3f7, 0xc67178f2,
];

fn choose(x: u32, y: u32, z: u32) -> u32
    ensures { result ≡ ch x y z }
{
    (x & y) ^ (!x & z)
}

fn majority(x: u32, y: u32, z: u32) -> u32
    ensures { result ≡ maj x y z }
{
    (x & y) ^ (x & z) ^ (y & z)
}

// The two large sigmas of the standard, which differ in the three counts.
fn big_sigma<const A: u32, const B: u32, const C: u32>(x: u32) -> u32
    ensures { result ≡ bit_xor (bit_xor (rotate_right w32 x A) (rotate_right w32 x B)) (rotate_right w32 x C) }
{
    x.rotate_right(A) ^ x.rotate_right(B) ^ x.rotate_right(C)
}

// The two small ones, which differ in two counts and a shift.
fn small_sigma<const A: u32, const B: u32, const C: u32>(x: u32) -> u32
    requires { C < 32 }
    ensures { result ≡ bit_xor (bit_xor (rotate_right w32 x A) (rotate_right w32 x B)) (x / 2 ^ C) }
{
    x.rotate_right(A) ^ x.rotate_right(B) ^ (x >> C)
}

// The words of a block, each of four bytes.
fn load(block: &[u8; BLOCK_LEN]) -> [u32; 16]
    ensures { result ≡ first_words block.now 16 }
{
    let words = block.as_chunks::<4>().0;
    array::from_fn(|i| u32::from_be_bytes(words[i]))
}

// The schedule: the words of a block, and those made of the words before them. No iterator of a slice reads
// behind where it writes, and a window of the last sixteen words is no plainer and takes 1.8 times as long. They
// are made in eights, since one loop over all of them takes 1.08 times as long.
fn extend(first: [u32; 16]) -> [u32; 64]
    ensures { result ≡ grown first 48 }
{
    let mut w = [0; 64];
    w[..16].copy_from_slice(&first);
    for i in 2..8 {
        for t in 8 * i..8 * i + 8 {
            w[t] = small_sigma::<17, 19, 10>(w[t - 2])
                .wrapping_add(w[t - 7])
                .wrapping_add(small_sigma::<7, 18, 3>(w[t - 15]))
                .wrapping_add(w[t - 16]);
        }
    }
    w
}

// One round: the eight working variables, rewritten.
#[tactic(auto, unfolding(crate::specs::Sha256::round_of, crate::specs::Sha256::temp1, crate::specs::Sha256::temp2))]
fn round(s: [u32; 8], k: u32, w: u32) -> [u32; 8]
    ensures { result ≡ round_of s k w }
{
    let [a, b, c, d, e, f, g, h] = s;
    let t1 = h
        .wrapping_add(big_sigma::<6, 11, 25>(e))
        .wrapping_add(choose(e, f, g))
        .wrapping_add(k)
        .wrapping_add(w);
    let t2 = big_sigma::<2, 13, 22>(a).wrapping_add(majority(a, b, c));
    [t1.wrapping_add(t2), a, b, c, d.wrapping_add(t1), e, f, g]
}

// Eight rounds, over the constants and the words of each.
fn eight_rounds(first: [u32; 8], constants: &[u32; 8], words: &[u32; 8]) -> [u32; 8]
    ensures { result ≡ fold (λ s kw. round_of s kw.0 kw.1) first (zip constants.now words.now) }
{
    let mut s = first;
    for (k, w) in constants.iter().zip(words) {
        let next = round(s, *k, *w);
        s = next;
    }
    s
}

// The rounds are done in eights, since one loop over all of them takes 1.2 times as long.
fn all_rounds(w: [u32; 64], first: [u32; 8]) -> [u32; 8]
    ensures { result ≡ rounds w first 64 }
{
    let constants = CONSTANTS.as_chunks::<8>().0;
    let words = w.as_chunks::<8>().0;
    let mut s = first;
    for (k, w) in constants.iter().zip(words) {
        let next = eight_rounds(s, k, w);
        s = next;
    }
    s
}

fn add_words(s: [u32; 8], v: [u32; 8]) -> [u32; 8]
    ensures { result ≡ sums s v }
{
    array::from_fn(|i| s[i].wrapping_add(v[i]))
}

// The hash value after one block more.
#[tactic(auto, unfolding(crate::specs::Sha256::compressed, crate::specs::Sha256::schedule))]
pub(crate) fn compress(s: [u32; 8], block: &[u8; BLOCK_LEN]) -> [u32; 8]
    ensures { result ≡ compressed s block.now }
{
    let w = extend(load(block));
    let v = all_rounds(w, s);
    add_words(s, v)
}
