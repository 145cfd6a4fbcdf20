// Messages and keys that are made, not written out.
ghost use Rattle.std.specs.Prelude.{◌≡◌, ℕ, ◌%◌, ◌<◌, ◌++◌, take, replicate, slice_index};

use std::array;

// The bytes 0 to 250, over and over.
pub fn pattern() -> [u8; 1000]
    ensures { (k : ℕ) → k < 1000 → slice_index result k ≡ k % 251 }
{
    // The remainder fits: `try_from` would add a refusal that never comes.
    array::from_fn(|i| (i % 251) as u8)
}

// The key with zeros up to 32 bytes, or its first 32 bytes.
#[tactic(auto, using(crate::proofs::Making::filled_all))]
pub fn zero_filled(key: &[u8]) -> [u8; 32]
    ensures { result ≡ take 32 (key.now ++ replicate 32 0) }
{
    let mut filled = [0; 32];
    let len = key.len().min(filled.len());
    filled[..len].copy_from_slice(&key[..len]);
    filled
}
