// The reader of update texts. The order of its checks decides which refusal and which place is
// answered: the map, then each field in turn, then bytes left over.
ghost use Rattle.std.specs.Prelude.{◌≡◌, ◌-◌, ◌≤◌, length, [], IfSome};
ghost use Rattle.update.specs.Contents.{contents};
ghost use Rattle.update.specs.Laws.{AcceptsTexts};
ghost use Rattle.outcome.specs.Order.{below};
ghost use Rattle.update.specs.Layout.{bit_of};
ghost use Rattle.update.specs.Reading.{stands, map_allowed, fields_at, reads};
ghost use Rattle.outcome.specs.Outcomes.{Answers};

use crate::layout::{DIGEST_LEN, Field, MAX_PREDECESSORS, MAX_VALUE_LEN, SEAL_LEN, UNUSED};
use crate::parts::{Address, Parts};
use crate::refusal::Refusal;

// What is left to read of a text, and the length of the whole: a place in the text is the
// difference, and a text that ends inside a field is refused at its end.
#[derive(Clone, Copy)]
pub(crate) struct Reader<'a> {
    rest: &'a [u8],
    total: usize,
    ghost inside: { length rest.now ≤ total },
}

fn is_below(a: &[u8], b: &[u8]) -> bool
    ensures { result ≡ below a.now b.now }
{
    a < b
}

impl<'a> Reader<'a> {
    ghost use Rattle.update.specs.Reading.{cut_at, count_at, author_at, address_at, ascending_at, predecessors_at, value_at, seal_at, end_at};
    ghost use Rattle.update.specs.Reader.{Reads, ReadsIf, Takes};

    pub(crate) fn new(text: &'a [u8]) -> Reader<'a>
        ensures rest { result.rest.now ≡ text.now }
        ensures total { result.total ≡ length text.now }
    {
        Reader {
            rest: text,
            total: text.len(),
        }
    }

    fn place(&self) -> usize
        ensures { result ≡ self.now.total - length self.now.rest.now }
    {
        self.total - self.rest.len()
    }

    // The front of what is left, once it is cut; else the text ends inside a field.
    fn take<T>(&mut self, cut: Option<(T, &'a [u8])>) -> Result<T, Refusal>
        requires { IfSome cut (λ p. length p.1.now ≤ self.old.total) }
        ensures { Takes cut.entry self.old result self.new }
    {
        let (front, rest) = cut.ok_or(Refusal::BadLength(self.total))?;
        self.rest = rest;
        Ok(front)
    }

    // The next `N` bytes.
    fn array<const N: usize>(&mut self) -> Result<&'a [u8; N], Refusal>
        ensures { Reads (λ x. x.now) (λ total. cut_at total N) self.old result self.new }
    {
        self.take(self.rest.split_first_chunk::<N>())
    }

    // The next `n` bytes.
    fn slice(&mut self, n: usize) -> Result<&'a [u8], Refusal>
        ensures { Reads (λ x. x.now) (λ total. cut_at total n) self.old result self.new }
    {
        self.take(self.rest.split_at_checked(n))
    }

    // A byte from 1 to `most`, else `fault`.
    fn count(&mut self, most: u8, fault: Refusal) -> Result<u8, Refusal>
        ensures { Reads (λ x. x) (λ total. count_at total most fault) self.old result self.new }
    {
        let [count] = *self.array::<1>()?;
        if !(1..=most).contains(&count) {
            return Err(fault);
        }
        Ok(count)
    }

    fn author(&mut self) -> Result<u16, Refusal>
        ensures { Reads (λ x. x) author_at self.old result self.new }
    {
        // Bytes that are always there are taken by a slice pattern, as the map is.
        let [high, low, rest @ ..] = self.rest else {
            return Err(Refusal::BadLength(self.total));
        };
        self.rest = rest;
        Ok(u16::from_be_bytes([*high, *low]))
    }

    fn address(&mut self) -> Result<Address, Refusal>
        ensures { Reads (λ x. x) address_at self.old result self.new }
    {
        let [table, a, b, c, d, column] = *self.array::<6>()?;
        let row = u32::from_be_bytes([a, b, c, d]);
        Ok(Address { table, row, column })
    }

    // Digests, each whole, then above the one before it. Nothing is taken.
    pub(crate) fn check_digests(mut self, count: u8) -> Result<(), Refusal>
        ensures { Answers (λ _. tt) result (ascending_at self.entry.total [] count self.entry.rest.now) }
    {
        let mut before: &[u8] = &[];
        for _k in 0..count {
            let place = self.place();
            let digest = self.array::<DIGEST_LEN>()?;
            if !is_below(before, digest) {
                return Err(Refusal::BadPredecessors(place));
            }
            before = digest;
        }
        Ok(())
    }

    fn predecessors(&mut self) -> Result<&'a [u8], Refusal>
        ensures { Reads (λ x. x.now) predecessors_at self.old result self.new }
    {
        let fault = Refusal::BadPredecessors(self.place());
        let count = self.count(MAX_PREDECESSORS, fault)?;
        self.check_digests(count)?;
        self.slice(DIGEST_LEN * usize::from(count))
    }

    fn value(&mut self) -> Result<&'a [u8], Refusal>
        ensures { Reads (λ x. x.now) value_at self.old result self.new }
    {
        let fault = Refusal::BadValueLength(self.place());
        let count = self.count(MAX_VALUE_LEN, fault)?;
        self.slice(usize::from(count))
    }

    fn seal(&mut self) -> Result<&'a [u8], Refusal>
        ensures { Reads (λ x. x.now) seal_at self.old result self.new }
    {
        self.slice(SEAL_LEN)
    }

    // A field that is there only if its bit stands, which `present` says: the value is still to be read.
    fn optional<T, F>(&mut self, present: bool, read: F) -> Result<Option<T>, Refusal>
    where
        F: FnOnce(&mut Reader<'a>) -> Result<T, Refusal>,
        requires { F.IsAlwaysCallable read }
        ensures { ReadsIf F.FnOnce read present self.old result self.new }
    {
        if !present {
            return Ok(None);
        }
        read(self).map(Some)
    }

    fn end(self) -> Result<(), Refusal>
        ensures { Answers (λ _. tt) result (end_at self.entry.total self.entry.rest.now) }
    {
        if !self.rest.is_empty() {
            return Err(Refusal::BadLength(self.place()));
        }
        Ok(())
    }

    fn fields(mut self, map: u8) -> Result<Parts<'a>, Refusal>
        ensures { Answers contents result (fields_at self.entry.total map self.entry.rest.now) }
    {
        let author = self.author()?;
        let address = self.optional(has(map, Field::Address), Reader::address)?;
        let predecessors = self.optional(has(map, Field::Predecessors), Reader::predecessors)?;
        let value = self.optional(has(map, Field::Value), Reader::value)?;
        let seal = self.optional(has(map, Field::Seal), Reader::seal)?;
        self.end()?;
        Ok(Parts {
            author,
            address,
            predecessors,
            value,
            seal,
        })
    }
}

fn has(map: u8, field: Field) -> bool
    ensures { result ≡ stands map (bit_of field) }
{
    map & field as u8 != 0
}

fn is_allowed(map: u8) -> bool
    ensures { result ≡ map_allowed map }
{
    map < UNUSED && has(map, Field::Author) && (!has(map, Field::Value) || has(map, Field::Address))
}

impl<'a> Parts<'a> {
    // The parts of a text, which are parts of its bytes.
    pub fn read(text: &'a [u8]) -> Result<Parts<'a>, Refusal>
        ensures answer { Answers contents result (reads text.now) }
        ensures accepts_texts { AcceptsTexts text.now result }
    {
        let [map, rest @ ..] = text else {
            return Err(Refusal::BadLength(0));
        };
        if !is_allowed(*map) {
            return Err(Refusal::BadMap);
        }
        let total = text.len();
        Reader { rest, total }.fields(*map)
    }
}
