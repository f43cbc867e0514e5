// The books: an entry for each buffer number, in bytes that the caller lends. `gaps` has the lowest free number and the lowest gap.
// Stands for what the Rust has in shared `Buffer`s and the heap: 01, "Lent memory".
#![tactic(auto)]

ghost use Rattle.std.specs.Prelude.{◌≡◌, ◌+◌, ◌*◌, ◌≤◌, length};
ghost use Rattle.books.specs.Entry.{entry_of, with_entry, is_free};

use counts::{BufferNumber, ByteCount};

// An entry of the books. hold is 1 where the caller holds the buffer, and 0 where not.
#[derive(Clone, Copy)]
pub struct Entry {
    pub start: u32,
    pub capacity: ByteCount,
    pub length: ByteCount,
    pub hold: u32,
    pub listings: u32,
}

// The entry of number i.
pub fn entry_at(books: &[u8], i: BufferNumber) -> Entry
    requires { 24 + 20 * i.0 ≤ length books.now }
    ensures { result ≡ entry_of books.now i.0 }
{
    let at = 4 + 20 * (i.0 as usize);
    Entry {
        start: words::get32(books, at),
        capacity: ByteCount(words::get32(books, at + 4)),
        length: ByteCount(words::get32(books, at + 8)),
        hold: words::get32(books, at + 12),
        listings: words::get32(books, at + 16),
    }
}

// The entry e for number i, and nothing else changed.
pub fn put_entry(books: &mut [u8], i: BufferNumber, e: Entry)
    requires { 24 + 20 * i.0 ≤ length books.old }
    ensures { books.new ≡ with_entry books.old i.0 e }
{
    let at = 4 + 20 * (i.0 as usize);
    words::put32(books, at, e.start);
    words::put32(books, at + 4, e.capacity.0);
    words::put32(books, at + 8, e.length.0);
    words::put32(books, at + 12, e.hold);
    words::put32(books, at + 16, e.listings);
}

// Whether a buffer with this entry is free: held by nobody and listed nowhere.
pub fn is_free(e: Entry) -> bool
    ensures { result ≡ is_free e }
{
    if e.hold == 0 { e.listings == 0 } else { false }
}
