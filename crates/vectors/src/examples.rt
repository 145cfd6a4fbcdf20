// The worked examples of every crate.
ghost use Rattle.vectors.specs.Worked.{WorkedExamples};

use digest::Digest;
use digest::examples::digest_of_abc;
use update::examples::worked_example;

#[derive(Clone, Copy)]
pub struct Worked {
    pub text: [u8; 12],
    pub digest: Digest,
}

// An update text and the digest of "abc". Its contract is the joint statement of the worked examples.
pub fn worked_examples() -> Worked
    ensures { WorkedExamples result.text result.digest.bytes }
{
    let text = worked_example();
    let digest = digest_of_abc();
    Worked { text, digest }
}
