// The sizes of a text's fields, and the bits of its map.

// The longest text, and the least room for writing one.
pub const MAX_TEXT_LEN: usize = 363;

pub(crate) const DIGEST_LEN: usize = 32;

pub(crate) const SEAL_LEN: usize = 32;

pub(crate) const MAX_PREDECESSORS: u8 = 8;

pub(crate) const MAX_VALUE_LEN: u8 = 64;

// The fields of a text, each with the bit of the map that says that it is there; `as u8` gives the bit.
#[derive(Clone, Copy)]
pub(crate) enum Field {
    Author = 1,
    Address = 2,
    Predecessors = 4,
    Value = 8,
    Seal = 16,
}

// The lowest of the bits that are always clear: no field, but a bound of the map as a number.
pub(crate) const UNUSED: u8 = 32;
