// The worked examples and the laws, proved of the definitions that the contracts cite.
ghost use Rattle.digest.specs.Examples.{Examples};
ghost use Rattle.digest.specs.Order.{ComparedByBytes};
ghost use Rattle.digest.specs.Laws.{DigestsHave32Bytes, DigestsAreOrdered, PaddingEndsABlock, ConstantsAreRoots, KeysMayEndInZeros};

use crate::Digest;
use crate::hash::sha256;

// The digest of "abc". Its contract states the worked examples, and what holds of every digest and seal.
pub fn digest_of_abc() -> Digest
    ensures examples { Examples result.bytes }
    ensures sizes { DigestsHave32Bytes }
    ensures order { DigestsAreOrdered }
    ensures compared { ComparedByBytes ⟦<Digest as PartialEq>⟧.eq ⟦<Digest as PartialOrd>⟧.partial_cmp ⟦<Digest as Ord>⟧.cmp }
    ensures padding { PaddingEndsABlock }
    ensures constants { ConstantsAreRoots }
    ensures keys { KeysMayEndInZeros }
{
    sha256(b"abc")
}
