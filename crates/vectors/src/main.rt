// Runs published test vectors of SHA-256 and HMAC-SHA-256, and lengths around each edge of a block, and
// prints each digest.
#![tactic(auto)]

mod examples;
mod inputs;
mod vector;

use crate::examples::worked_examples;
use crate::inputs::{pattern, zero_filled};
use crate::vector::Vector;

const BITS_448: &[u8] = b"abcdbcdecdefdefgefghfghighijhijkijkljklmklmnlmnomnopnopq";

const BITS_896: &[u8] =
    b"abcdefghbcdefghicdefghijdefghijkefghijklfghijklmghijklmnhijklmnoijklmnopjklmnopqklmnopqrlmnopqrsmnopqrstnopqrstu";

// Both sides of each edge of a block, the longest update text, and a longer message.
const LENGTHS: [usize; 8] = [55, 56, 63, 64, 119, 120, 363, 1000];

// The examples of FIPS 180-4, behind a worked one of our own.
fn run_messages(rt: &HostRuntime) -> anyhow::Result<()> {
    let worked = worked_examples();
    let many = vec![in rt.alloc(); b'a'; 1_000_000]?;
    rt.println(Vector::of_message("the worked text", &worked.text))?;
    rt.println(Vector::of_message("the empty message", b""))?;
    rt.println(Vector::new("abc", worked.digest))?;
    rt.println(Vector::of_message("448 bits", BITS_448))?;
    rt.println(Vector::of_message("896 bits", BITS_896))?;
    rt.println(Vector::of_message("a million a", many.as_slice()))?;
    Ok(())
}

fn run_lengths(rt: &HostRuntime) -> anyhow::Result<()> {
    let bytes = pattern();
    for n in LENGTHS {
        if let Some(message) = bytes.get(0..n) {
            let label = format!(in rt.alloc(); "{n} bytes")?;
            rt.println(Vector::of_message(label.as_str(), message))?;
        }
    }
    Ok(())
}

// The test cases 1 to 4 of RFC 4231. The key of the last is the bytes 1 to 25.
fn run_seals(rt: &HostRuntime) -> anyhow::Result<()> {
    let cases: [(&str, [u8; 32], &[u8]); 4] = [
        ("seal 1", zero_filled(&[0x0b; 20]), b"Hi There"),
        (
            "seal 2",
            zero_filled(b"Jefe"),
            b"what do ya want for nothing?",
        ),
        ("seal 3", zero_filled(&[0xaa; 20]), &[0xdd; 50]),
        ("seal 4", zero_filled(&pattern()[1..26]), &[0xcd; 50]),
    ];
    for (label, key, message) in cases {
        rt.println(Vector::of_seal(label, &key, message))?;
    }
    Ok(())
}

fn run(rt: &HostRuntime) -> anyhow::Result<()> {
    run_messages(rt)?;
    run_lengths(rt)?;
    run_seals(rt)
}

fn main(rt: HostRuntime) -> anyhow::Result<()> {
    run(&rt)
}
