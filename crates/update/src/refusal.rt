// Why a call was refused. One enum serves every crate, so that `?` passes a refusal up as it is.
ghost use Rattle.std.specs.Prelude.{◌≡◌, Some};
ghost use Rattle.update.specs.Refusals.{number_of, place_of, cause_of};

use std::fmt;

// A refusal leaves everything as it was. Those about a text's bytes hold the place, a byte index.
#[derive(Clone, Copy, Debug)]
pub enum Refusal {
    BadLength(usize),
    BadMap,
    BadPredecessors(usize),
    BadValueLength(usize),
    NotGenuine,
    PredecessorAbsent,
    NoRoom,
    QuotaReached,
    PendingFull,
    BadMessage,
    DigestNotHeld,
    SmallBuffer,
    TooManyHeads,
    BadSetUp,
    NotAnnounced,
    NoSuchPlace,
    BadSettings,
}

impl Refusal {
    // The number by which users know the refusal; `docs/REFUSALS.md` fixes it.
    pub fn number(self) -> u8
        ensures { result ≡ number_of self }
    {
        match self {
            Refusal::BadLength(_) => 1,
            Refusal::BadMap => 2,
            Refusal::BadPredecessors(_) => 3,
            Refusal::BadValueLength(_) => 4,
            Refusal::NotGenuine => 5,
            Refusal::PredecessorAbsent => 6,
            Refusal::NoRoom => 7,
            Refusal::QuotaReached => 8,
            Refusal::PendingFull => 9,
            Refusal::BadMessage => 10,
            Refusal::DigestNotHeld => 11,
            Refusal::SmallBuffer => 12,
            Refusal::TooManyHeads => 13,
            Refusal::BadSetUp => 14,
            Refusal::NotAnnounced => 15,
            Refusal::NoSuchPlace => 16,
            Refusal::BadSettings => 17,
        }
    }

    // The byte index that the refusal names, 0 where it names none: users are always told a place.
    pub fn place(self) -> usize
        ensures { result ≡ place_of self }
    {
        match self {
            Refusal::BadLength(place) => place,
            Refusal::BadPredecessors(place) => place,
            Refusal::BadValueLength(place) => place,
            _ => 0,
        }
    }

    pub fn cause(self) -> &'static str
        ensures { result.now ≡ cause_of self }
    {
        match self {
            Refusal::BadLength(_) =>
                "the text is empty, ends inside a field or has bytes left over",
            Refusal::BadMap => "the map is not allowed, or the parts would need such a map",
            Refusal::BadPredecessors(_) =>
                "the predecessors are not 1 to 8 digests, strictly ascending",
            Refusal::BadValueLength(_) => "the value does not have 1 to 64 bytes",
            Refusal::NotGenuine => "the text is not genuine",
            Refusal::PredecessorAbsent => "a predecessor is absent",
            Refusal::NoRoom => "there is no room in the store",
            Refusal::QuotaReached => "the author's quota is reached",
            Refusal::PendingFull => "the pending queue is full",
            Refusal::BadMessage =>
                "the message or its summary breaks its form or is of another kind",
            Refusal::DigestNotHeld => "the digest is not held",
            Refusal::SmallBuffer => "the buffer is too small",
            Refusal::TooManyHeads => "there are too many heads",
            Refusal::BadSetUp =>
                "a table is smaller than the store's capacity, or the store is not empty",
            Refusal::NotAnnounced => "the message comes before an announcement",
            Refusal::NoSuchPlace => "there is no text at this place",
            Refusal::BadSettings => "there are too many keys or digests, or the quota is 0",
        }
    }
}

// The cause in words.
impl fmt::Display for Refusal {
    ghost output = { λ r. Some (cause_of r) };

    fn fmt<W: fmt::Write>(&self, f: &mut fmt::Formatter<W>) -> fmt::Result {
        f.write_str(self.cause())
    }
}
