// The longest text, and what lies just past each limit.
use crate::MAX_TEXT_LEN;
use crate::examples::worked_example;
use crate::parts::{Address, Parts};
use crate::refusal::Refusal;
use std::process::Abort;
use std::test::Fail;

// Digests of 32 bytes, ascending.
fn digests() -> [u8; 288] {
    let mut all = [0u8; 288];
    for (i, byte) in all.iter_mut().enumerate() {
        *byte = (i / 32) as u8;
    }
    all
}

fn full<'a>(digests: &'a [u8], value: &'a [u8], seal: &'a [u8]) -> Parts<'a> {
    Parts {
        author: 0x0102,
        address: Some(Address {
            table: 3,
            row: 0x04050607,
            column: 8,
        }),
        predecessors: Some(digests),
        value: Some(value),
        seal: Some(seal),
    }
}

// The number and place of a refusal, as users are told them.
fn told<T: Drop>(answer: Result<T, Refusal>) -> Option<(u8, usize)> {
    let refusal = answer.err()?;
    Some((refusal.number(), refusal.place()))
}

#[test]
fn reads_the_worked_example(rt: HostRuntime) -> Result<(), Fail> {
    let text = worked_example();
    let parts = Parts::read(&text)?;
    assert_eq!(rt; parts.author, 7);
    assert!(rt;
        parts.address
            == Some(Address {
                table: 2,
                row: 5,
                column: 1,
            })
    );
    assert!(rt; parts.value == Some(b"27".as_slice()));
    assert!(rt; parts.predecessors.is_none() && parts.seal.is_none());
    Ok(())
}

#[test]
fn writes_the_longest_text(rt: HostRuntime) -> Result<(), Fail> {
    let digests = digests();
    let mut out = [0xeeu8; 400];
    let written = full(&digests[0..256], &[0x41; 64], &[0xab; 32]).write(&mut out)?;
    assert_eq!(rt; written, MAX_TEXT_LEN);
    assert!(rt; out[0] == 0x1f && out[1] == 1 && out[2] == 2 && out[3] == 3 && out[4] == 4);
    assert!(rt; out[362] == 0xab && out[363] == 0xee && out[399] == 0xee);
    let parts = Parts::read(&out[0..363])?;
    assert!(rt; parts.predecessors == Some(&digests[0..256]));
    assert_eq!(rt; told(Parts::read(&out[0..362])), Some((1, 362)));
    assert_eq!(rt; told(Parts::read(&out[0..364])), Some((1, 363)));
    Ok(())
}

// The writer refuses these parts with that number, at place 0.
fn refused(rt: &impl Abort, parts: Parts, number: u8, out: &mut [u8]) {
    assert_eq!(rt; told(parts.write(out)), Some((number, 0)));
}

#[test]
fn refuses_parts_past_the_limits(rt: HostRuntime) {
    let digests = digests();
    let (value, seal) = ([0x41u8; 65], [0xabu8; 33]);
    let (d, v, s) = (&digests[0..256], &value[0..64], &seal[0..32]);
    let (mut out, mut small) = ([0u8; 363], [0u8; 362]);
    refused(&rt, full(&digests[0..288], v, s), 3, &mut out);
    refused(&rt, full(&digests[0..255], v, s), 3, &mut out);
    refused(&rt, full(v, v, s), 3, &mut out);
    refused(&rt, full(d, &value[0..65], s), 4, &mut out);
    refused(&rt, full(d, &value[0..0], s), 4, &mut out);
    refused(&rt, full(d, v, &seal[0..33]), 2, &mut out);
    refused(&rt, full(d, v, s), 12, &mut small);
    let mut nowhere = full(d, v, s);
    nowhere.address = None;
    refused(&rt, nowhere, 2, &mut out);
    assert!(rt; out == [0u8; 363] && small == [0u8; 362]);
}
