// The writer of update texts.
ghost use Rattle.std.specs.Prelude.{◌≡◌, ◌+◌, ◌/◌, ◌<◌, ◌≤◌, length, if◌then◌else◌, Ok, is_ok, []};
ghost use Rattle.update.specs.Contents.{borrowed, contents};
ghost use Rattle.update.specs.Laws.{WritesTexts};
ghost use Rattle.update.specs.Layout.{bit_of, map_of, address_bytes, counted_bytes, plain_bytes, layout};
ghost use Rattle.update.specs.Reading.{ascending_at};
ghost use Rattle.update.specs.Writer.{HasRoom, Wrote};
ghost use Rattle.update.specs.Writing.{good_predecessors, good_value, good_seal, faults, writing};
ghost use Rattle.outcome.specs.Buffers.{placed, after, size};

use crate::layout::{DIGEST_LEN, Field, MAX_PREDECESSORS, MAX_TEXT_LEN, MAX_VALUE_LEN, SEAL_LEN};
use crate::parts::{Address, Parts};
use crate::reader::Reader;
use crate::refusal::Refusal;

fn are_ascending(digests: &[u8], count: u8) -> bool
    ensures { result ≡ is_ok (ascending_at 0 [] count digests.now) }
{
    Reader::new(digests).check_digests(count).is_ok()
}

fn are_predecessors(list: &[u8]) -> bool
    ensures { result ≡ good_predecessors list.now }
{
    let Ok(count) = u8::try_from(list.len() / DIGEST_LEN) else {
        return false;
    };
    list.len() % DIGEST_LEN == 0
        && (1..=MAX_PREDECESSORS).contains(&count)
        && are_ascending(list, count)
}

fn is_value(value: &[u8]) -> bool
    ensures { result ≡ good_value value.now }
{
    (1..=usize::from(MAX_VALUE_LEN)).contains(&value.len())
}

fn is_seal(seal: &[u8]) -> bool
    ensures { result ≡ good_seal seal.now }
{
    seal.len() == SEAL_LEN
}

fn check_parts(parts: Parts) -> Result<(), Refusal>
    ensures { result ≡ faults (contents parts.entry) }
{
    if parts.address.is_none() && parts.value.is_some() {
        return Err(Refusal::BadMap);
    }
    if !parts.predecessors.is_none_or(are_predecessors) {
        return Err(Refusal::BadPredecessors(0));
    }
    if !parts.value.is_none_or(is_value) {
        return Err(Refusal::BadValueLength(0));
    }
    if !parts.seal.is_none_or(is_seal) {
        return Err(Refusal::BadMap);
    }
    Ok(())
}

// The map needs only whether the field is there, and no value of it.
fn flag(present: bool, field: Field) -> u8
    ensures { result ≡ (if present then bit_of field else 0) }
{
    if present { field as u8 } else { 0 }
}

fn map_byte(parts: Parts) -> u8
    ensures { result ≡ map_of (contents parts.entry) }
{
    Field::Author as u8
        + flag(parts.address.is_some(), Field::Address)
        + flag(parts.predecessors.is_some(), Field::Predecessors)
        + flag(parts.value.is_some(), Field::Value)
        + flag(parts.seal.is_some(), Field::Seal)
}

// The caller's buffer, and how much of it is written: nothing is allocated for a text.
#[derive(Drop)]
struct Writer<'a> {
    out: &'a mut [u8],
    end: usize,
}

impl Writer<'_> {
    fn put(&mut self, part: &[u8])
        requires { HasRoom self.old part.now }
        ensures { Wrote self.old part.now self.new }
    {
        let out = &mut *self.out;
        out[self.end..self.end + part.len()].copy_from_slice(part);
        self.end += part.len();
    }

    fn put_address(&mut self, address: Option<Address>)
        requires { HasRoom self.old (address_bytes address) }
        ensures { Wrote self.old (address_bytes address) self.new }
    {
        if let Some(Address { table, row, column }) = address {
            let [a, b, c, d] = row.to_be_bytes();
            self.put(&[table, a, b, c, d, column]);
        }
    }

    // A field behind a byte that counts its units.
    fn put_counted(&mut self, unit: usize, field: Option<&[u8]>)
        requires some_unit { 0 < unit }
        requires few_units { length (plain_bytes (borrowed field)) / unit < 256 }
        requires room { HasRoom self.old (counted_bytes unit (borrowed field)) }
        ensures { Wrote self.old (counted_bytes unit (borrowed field.entry)) self.new }
    {
        if let Some(field) = field {
            // `few_units` bounds it: `try_from` would add a refusal that never comes.
            self.put(&[(field.len() / unit) as u8]);
            self.put(field);
        }
    }

    fn put_parts(&mut self, parts: Parts)
        requires no_fault { faults (contents parts) ≡ Ok tt }
        requires room { HasRoom self.old (layout (contents parts)) }
        ensures { Wrote self.old (layout (contents parts.entry)) self.new }
    {
        self.put(&[map_byte(parts)]);
        self.put(&parts.author.to_be_bytes());
        self.put_address(parts.address);
        self.put_counted(DIGEST_LEN, parts.predecessors);
        self.put_counted(1, parts.value);
        self.put(parts.seal.unwrap_or(&[]));
    }
}

fn put_text(out: &mut [u8], parts: Parts) -> usize
    requires room { 363 ≤ length out.old }
    requires no_fault { faults (contents parts) ≡ Ok tt }
    ensures end { result ≡ length (layout (contents parts.entry)) }
    ensures bytes { out.new ≡ placed 0 (layout (contents parts.entry)) out.old }
{
    let mut text = Writer { out, end: 0 };
    text.put_parts(parts);
    text.end
}

impl Parts<'_> {
    // Writes the text at the start of the buffer, and answers its length.
    pub fn write(self, out: &mut [u8]) -> Result<usize, Refusal>
        ensures answer { result ≡ size (writing (length out.old) (contents self.entry)) }
        ensures bytes { out.new ≡ after (writing (length out.old) (contents self.entry)) out.old }
        ensures writes_texts { WritesTexts (contents self.entry) out.old result out.new }
    {
        if out.len() < MAX_TEXT_LEN {
            return Err(Refusal::SmallBuffer);
        }
        check_parts(self)?;
        Ok(put_text(out, self))
    }
}
