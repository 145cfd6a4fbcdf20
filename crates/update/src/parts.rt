// The parts of an update text.

// An entry of the catalogue.
#[derive(Clone, Copy, PartialEq, Eq, Debug)]
pub struct Address {
    pub table: u8,
    pub row: u32,
    pub column: u8,
}

// What an update text says. The fields that are there borrow their bytes from the text; the
// predecessors are digests of 32 bytes each, one behind the other. A list of any length may be passed,
// and is refused, so they are no array of digests.
#[derive(Clone, Copy, Debug)]
pub struct Parts<'a> {
    pub author: u16,
    pub address: Option<Address>,
    pub predecessors: Option<&'a [u8]>,
    pub value: Option<&'a [u8]>,
    pub seal: Option<&'a [u8]>,
}
