// Bytes to hexadecimal text, in lower case.
ghost use Rattle.std.specs.Prelude.{◌≡◌, ◌<◌, Some};
ghost use Rattle.std.specs.Fmt.{WritesOnOk};
ghost use Rattle.hexadecimal.specs.Showing.{digit_of, byte_shown, shown_bytes};

use std::fmt;

// Bytes that are shown as two digits each.
#[derive(Clone, Copy)]
pub struct Hex<'a> {
    pub bytes: &'a [u8],
}

const DIGITS: [u8; 16] = *b"0123456789abcdef";

fn digit_char(n: u8) -> char
    requires { n < 16 }
    ensures { result ≡ digit_of n }
{
    char::from(DIGITS[usize::from(n)])
}

// Two characters from a table: the library's format `{:02x}` takes more than twice as long. A function of
// its own, since a proof knows that a byte is below 256 where it is a parameter.
fn put_byte<W: fmt::Write>(f: &mut fmt::Formatter<W>, b: u8) -> fmt::Result
    ensures { WritesOnOk W.write_str_gives f.old result (byte_shown b) f.new }
{
    f.write_char(digit_char(b / 16))?;
    f.write_char(digit_char(b % 16))
}

impl fmt::Display for Hex<'_> {
    ghost output = { λ h. Some (shown_bytes h.bytes.now) };

    fn fmt<W: fmt::Write>(&self, f: &mut fmt::Formatter<W>) -> fmt::Result {
        for b in self.bytes {
            put_byte(f, *b)?;
        }
        Ok(())
    }
}
