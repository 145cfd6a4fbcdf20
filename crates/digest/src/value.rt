// Digests as values: their bytes, their order, and how they are shown.
ghost use Rattle.std.specs.Prelude.{◌≡◌, Some};
ghost use Rattle.std.proofs.Common.{rules};
ghost use Rattle.std.specs.Cmp.Rules.{comparing};
ghost use Rattle.std.specs.Ordering.{as_partial_cmp};
ghost use Rattle.hexadecimal.specs.Showing.{shown_bytes};
ghost use Rattle.outcome.specs.Order.{bytes_rank};
ghost use Rattle.digest.specs.Order.{digest_rank};

use crate::Digest;
use hexadecimal::show::Hex;
use std::cmp::Ordering;
use std::fmt;

// One constructor and one accessor of the private bytes: `From` would say no more.
impl Digest {
    pub fn new(bytes: [u8; 32]) -> Digest
        ensures { result.bytes ≡ bytes }
    {
        Digest { bytes }
    }

    pub fn as_bytes(&self) -> &[u8; 32]
        ensures { result.now ≡ self.now.bytes }
    {
        &self.bytes
    }
}

// The first byte that differs tells. The library's comparison of arrays takes three times as long where that is
// the first of all.
fn order(a: &[u8; 32], b: &[u8; 32]) -> Ordering
    ensures { result ≡ bytes_rank a.now b.now }
{
    for (x, y) in a.iter().zip(b) {
        if x != y {
            return x.cmp(y);
        }
    }
    Ordering::Equal
}

// The members say the order in our words, so that a caller has it from the call itself.
impl PartialOrd for Digest {
    ghost partial_cmp = { as_partial_cmp digest_rank };

    ghost laws = { Prim.search (comparing, rules) };

    fn partial_cmp(&self, other: &Digest) -> Option<Ordering> {
        Some(self.cmp(other))
    }
}

impl Ord for Digest {
    ghost cmp = { digest_rank };

    ghost total = { Prim.search (comparing, rules) };

    ghost matches_partial_cmp = { Prim.search (comparing, rules) };

    ghost matches_eq = { Prim.search (comparing, rules) };

    fn cmp(&self, other: &Digest) -> Ordering {
        order(&self.bytes, &other.bytes)
    }
}

// 64 digits in lower case.
impl fmt::Display for Digest {
    ghost output = { λ d. Some (shown_bytes d.bytes) };

    fn fmt<W: fmt::Write>(&self, f: &mut fmt::Formatter<W>) -> fmt::Result {
        let hex = Hex { bytes: &self.bytes };
        write!(f, "{hex}")
    }
}
