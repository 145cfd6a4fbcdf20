// The fields of an update text, each on a line of its own.
ghost use Rattle.std.specs.Prelude.{◌≡◌, Some, is_some};
ghost use Rattle.std.specs.Option.{option_map};
ghost use Rattle.std.specs.List.{list_all};
ghost use Rattle.update.specs.Contents.{borrowed, contents};
ghost use Rattle.inspect.specs.Shown.{if_there, printable, text_in, address_shown, value_shown, predecessors_shown, seal_shown, parts_shown};

use hexadecimal::show::Hex;
use std::fmt;
use std::str::from_utf8;
use update::parts::{Address, Parts};

fn is_printable(bytes: &[u8]) -> bool
    ensures { result ≡ list_all printable bytes.now }
{
    bytes.iter().all(|b| matches!(b, b' '..=b'~'))
}

fn as_text(bytes: &[u8]) -> Option<&str>
    ensures { option_map (λ x. x.now) result ≡ text_in bytes.now }
{
    if !is_printable(bytes) {
        return None;
    }
    from_utf8(bytes).ok()
}

// What is there, or nothing.
#[derive(Clone, Copy)]
struct IfThere<T>(Option<T>);

impl<T: fmt::Display> fmt::Display for IfThere<T> {
    ghost output = { λ o. if_there T.output o.0 };

    fn fmt<W: fmt::Write>(&self, f: &mut fmt::Formatter<W>) -> fmt::Result {
        match &self.0 {
            Some(line) => line.fmt(f),
            None => Ok(()),
        }
    }
}

#[derive(Clone, Copy)]
struct AddressLine(Address);

impl fmt::Display for AddressLine {
    ghost output = { λ line. Some (address_shown (Some line.0)) };

    fn fmt<W: fmt::Write>(&self, f: &mut fmt::Formatter<W>) -> fmt::Result {
        let Address { table, row, column } = self.0;
        write!(f, "\n  table {table}, row {row}, column {column}")
    }
}

// The value, or that there is none at an address.
#[derive(Clone, Copy)]
struct ValueLine<'a> {
    address: Option<Address>,
    value: Option<&'a [u8]>,
}

impl fmt::Display for ValueLine<'_> {
    ghost output = { λ line. Some (value_shown (is_some line.address) (borrowed line.value)) };

    fn fmt<W: fmt::Write>(&self, f: &mut fmt::Formatter<W>) -> fmt::Result {
        let Some(bytes) = self.value else {
            if self.address.is_some() {
                return f.write_str("\n  no value: the entry is emptied");
            }
            return Ok(());
        };
        let hex = Hex { bytes };
        match as_text(bytes) {
            Some(text) => write!(f, "\n  value {hex} \"{text}\""),
            None => write!(f, "\n  value {hex}"),
        }
    }
}

#[derive(Clone, Copy)]
struct PredecessorLines<'a>(&'a [u8]);

impl fmt::Display for PredecessorLines<'_> {
    ghost output = { λ lines. Some (predecessors_shown (Some lines.0.now)) };

    fn fmt<W: fmt::Write>(&self, f: &mut fmt::Formatter<W>) -> fmt::Result {
        let (digests, _) = self.0.as_chunks::<32>();
        for digest in digests {
            let hex = Hex { bytes: digest };
            write!(f, "\n  predecessor {hex}")?;
        }
        Ok(())
    }
}

#[derive(Clone, Copy)]
struct SealLine<'a>(&'a [u8]);

impl fmt::Display for SealLine<'_> {
    ghost output = { λ line. Some (seal_shown (Some line.0.now)) };

    fn fmt<W: fmt::Write>(&self, f: &mut fmt::Formatter<W>) -> fmt::Result {
        let hex = Hex { bytes: self.0 };
        write!(f, "\n  seal {hex}")
    }
}

// Every part, in words.
#[derive(Clone, Copy)]
pub struct PartLines<'a>(pub Parts<'a>);

impl fmt::Display for PartLines<'_> {
    ghost output = { λ lines. Some (parts_shown (contents lines.0)) };

    fn fmt<W: fmt::Write>(&self, f: &mut fmt::Formatter<W>) -> fmt::Result {
        let Parts {
            author,
            address,
            predecessors,
            value,
            seal,
        } = self.0;
        let address_line = IfThere(address.map(AddressLine));
        let value_line = ValueLine { address, value };
        let predecessor_lines = IfThere(predecessors.map(PredecessorLines));
        let seal_line = IfThere(seal.map(SealLine));
        write!(
            f,
            "\n  author {author}{address_line}{value_line}{predecessor_lines}{seal_line}"
        )
    }
}
