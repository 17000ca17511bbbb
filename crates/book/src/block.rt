// A block of a book.
mod decodes;
mod reads;

/// The frame of a block and the bytes of its entries, three bytes an entry.
#[derive(Clone, Copy)]
pub struct Entries<'a> {
    pub frame: u8,
    pub most: &'a [u8; 192],
    pub least: &'a [u8; 192],
}

/// A block that is read. Its entries are a part of the book.
#[derive(Clone, Copy)]
pub enum Block<'a> {
    Events(Entries<'a>),
    Service(Entries<'a>),
    Shaping(Entries<'a>),
}
