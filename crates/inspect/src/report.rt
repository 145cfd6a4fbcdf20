// What is shown of a line of input, and how many lines came out which way.
ghost use Rattle.std.specs.Prelude.{◌≡◌, length, Some};
ghost use Rattle.hexadecimal.specs.Decoding.{decoding};
ghost use Rattle.update.specs.Contents.{contents};
ghost use Rattle.inspect.specs.declared.report.LineError.TheVariants.{Refused, NotHex};
ghost use Rattle.inspect.specs.Reports.{update_shown, error_shown, report_shown, line_shown, ReadsText, ReportsLine, tallied, tally_shown};

use crate::fields::PartLines;
use hexadecimal::decode::{HexError, decode};
use std::fmt;
use update::parts::Parts;
use update::refusal::Refusal;

// A text's length, and its parts.
#[derive(Clone, Copy)]
pub struct Update<'a> {
    pub length: usize,
    pub parts: Parts<'a>,
}

// Why a line shows no update.
#[derive(Clone, Copy)]
pub enum LineError {
    Refused(Refusal),
    NotHex(HexError),
}

impl From<Refusal> for LineError {
    ghost from_gives = { λ refusal e. e ≡ Refused refusal };

    fn from(refusal: Refusal) -> Self {
        Self::Refused(refusal)
    }
}

impl From<HexError> for LineError {
    ghost from_gives = { λ error e. e ≡ NotHex error };

    fn from(error: HexError) -> Self {
        Self::NotHex(error)
    }
}

impl<'a> Update<'a> {
    pub fn read(text: &'a [u8]) -> Result<Update<'a>, Refusal>
        ensures { ReadsText text.now result }
    {
        let parts = Parts::read(text)?;
        let length = text.len();
        Ok(Update { length, parts })
    }

    // The update of a line, whose bytes are written into the room lent for them.
    pub fn of_line(line: &[u8], room: &'a mut [u8]) -> Result<Update<'a>, LineError>
        ensures reports { ReportsLine (decoding (length room.old) line.now) result }
        ensures shows { report_shown result ≡ line_shown (decoding (length room.old) line.now) }
    {
        let count = decode(line, room)?;
        Ok(Update::read(&room[0..count])?)
    }
}

impl fmt::Display for Update<'_> {
    ghost output = { λ u. Some (update_shown u.length (contents u.parts)) };

    fn fmt<W: fmt::Write>(&self, f: &mut fmt::Formatter<W>) -> fmt::Result {
        let length = self.length;
        let parts = PartLines(self.parts);
        write!(f, "an update of {length} bytes{parts}")
    }
}

impl fmt::Display for LineError {
    ghost output = { λ e. Some (error_shown e) };

    fn fmt<W: fmt::Write>(&self, f: &mut fmt::Formatter<W>) -> fmt::Result {
        match *self {
            LineError::Refused(refusal) => {
                let number = refusal.number();
                let place = refusal.place();
                write!(f, "refused {number} at {place}: {refusal}")
            }
            LineError::NotHex(error) => write!(f, "not hexadecimal: {error}"),
        }
    }
}

// What is shown of a line.
#[derive(Clone, Copy)]
pub struct Report<'a>(pub Result<Update<'a>, LineError>);

impl fmt::Display for Report<'_> {
    ghost output = { λ r. Some (report_shown r.0) };

    fn fmt<W: fmt::Write>(&self, f: &mut fmt::Formatter<W>) -> fmt::Result {
        match self.0 {
            Ok(update) => write!(f, "{update}"),
            Err(error) => write!(f, "{error}"),
        }
    }
}

#[derive(Clone, Copy)]
pub struct Tally {
    read: u64,
    refused: u64,
    not_hex: u64,
}

impl Tally {
    pub fn new() -> Tally
        ensures { result ≡ record { read = 0; refused = 0; not_hex = 0 } }
    {
        Tally {
            read: 0,
            refused: 0,
            not_hex: 0,
        }
    }

    pub fn count(&mut self, report: Result<Update, LineError>)
        ensures { self.new ≡ tallied report.entry self.old }
    {
        match report {
            Ok(_) => self.read = self.read.saturating_add(1),
            Err(LineError::Refused(_)) => self.refused = self.refused.saturating_add(1),
            Err(LineError::NotHex(_)) => self.not_hex = self.not_hex.saturating_add(1),
        }
    }
}

impl fmt::Display for Tally {
    ghost output = { λ t. Some (tally_shown t) };

    fn fmt<W: fmt::Write>(&self, f: &mut fmt::Formatter<W>) -> fmt::Result {
        let Tally {
            read,
            refused,
            not_hex,
        } = *self;
        write!(
            f,
            "{read} read, {refused} refused, {not_hex} not hexadecimal"
        )
    }
}
