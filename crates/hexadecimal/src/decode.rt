// Hexadecimal text to bytes: two digits for each byte, in either case.
ghost use Rattle.std.specs.Prelude.{◌≡◌, ◌+◌, ◌/◌, ◌<◌, ◌≤◌, ◌^◌, true, length, is_ok, Some, slice_index};
ghost use Rattle.hexadecimal.specs.Decoding.{fault_shown, digit_at, byte_of, bytes_at, checked, decoding, Decoded, DecodesShown};
ghost use Rattle.outcome.specs.Buffers.{after, size};

use std::fmt;

#[derive(Clone, Copy, Debug)]
pub enum HexError {
    // The buffer has less than a byte for every two characters.
    SmallBuffer,
    // The character at this index is no digit.
    NotADigit(usize),
    OddLength,
}

fn digit(c: u8, place: usize) -> Result<u8, HexError>
    ensures { result ≡ digit_at place c }
{
    match c {
        b'0'..=b'9' => Ok(c - b'0'),
        b'a'..=b'f' => Ok(c - b'a' + 10),
        b'A'..=b'F' => Ok(c - b'A' + 10),
        _ => Err(HexError::NotADigit(place)),
    }
}

// The byte of two digits, which begin at `place`.
fn byte_at(pair: &[u8; 2], place: usize) -> Result<u8, HexError>
    requires { place + 1 < 2 ^ 64 }
    ensures { result ≡ byte_of place (slice_index pair.now 0) (slice_index pair.now 1) }
{
    let [high, low] = *pair;
    let high = digit(high, place)?;
    let low = digit(low, place + 1)?;
    Ok(high * 16 + low)
}

fn check(hex: &[u8]) -> Result<(), HexError>
    ensures { result ≡ checked (bytes_at 0 hex.now) }
{
    let (pairs, rest) = hex.as_chunks::<2>();
    for (i, pair) in pairs.iter().enumerate() {
        byte_at(pair, 2 * i)?;
    }
    if let [last] = rest {
        digit(*last, hex.len() - 1)?;
        return Err(HexError::OddLength);
    }
    Ok(())
}

// Writes the bytes of a text without faults, by index: of bytes that `iter_mut` lends a proof knows
// only how many they are.
fn fill(hex: &[u8], out: &mut [u8])
    requires room { length hex.now / 2 ≤ length out.old }
    requires no_fault { is_ok (bytes_at 0 hex.now) ≡ true }
    ensures { out.new ≡ after (bytes_at 0 hex.now) out.old }
{
    let (pairs, _) = hex.as_chunks::<2>();
    for (i, pair) in pairs.iter().enumerate() {
        if let Ok(byte) = byte_at(pair, 2 * i) {
            out[i] = byte;
        }
    }
}

// Writes the bytes of a text at the start of the buffer, and answers how many they are; or answers
// the text's first fault, and writes nothing. The caller lends the memory.
pub fn decode(hex: &[u8], out: &mut [u8]) -> Result<usize, HexError>
    ensures answer { result ≡ size (decoding (length out.old) hex.now) }
    ensures bytes { out.new ≡ after (decoding (length out.old) hex.now) out.old }
    ensures decoded { Decoded hex.now out.old result out.new }
    ensures shown { DecodesShown hex.now out.old result out.new }
{
    let count = hex.len() / 2;
    if out.len() < count {
        return Err(HexError::SmallBuffer);
    }
    check(hex)?;
    fill(hex, out);
    Ok(count)
}

impl fmt::Display for HexError {
    ghost output = { λ e. Some (fault_shown e) };

    fn fmt<W: fmt::Write>(&self, f: &mut fmt::Formatter<W>) -> fmt::Result {
        match *self {
            HexError::SmallBuffer => f.write_str("a small buffer"),
            HexError::NotADigit(place) => write!(f, "no digit at {place}"),
            HexError::OddLength => f.write_str("an odd number of digits"),
        }
    }
}
