// Listings: an entry taken, and freed when nobody holds or lists it any more. `list_changes` lists, unlists and lets go.
// Stands for the reference counts of the Rust's shared `Buffer`s: 01, "Lent memory".
#![tactic(auto)]

ghost use Rattle.std.specs.Prelude.{◌≡◌, ◌+◌, ◌*◌, ◌≤◌, ◌<◌, length};
ghost use Rattle.books.specs.Entry.{used_of};
ghost use Rattle.listings.specs.Listing.{settled, freed, taken, free_unused};

use books::Entry;
use counts::{BufferNumber, ByteCount};

// One more than the highest number below `used` that is not free, and 0 where all are.
fn top_used(books: &[u8], used: u32) -> u32
    requires { 4 + 20 * used ≤ length books.now }
    ensures { result ≡ settled books.now used }
{
    for below in (0..used).rev() {
        if !books::is_free(books::entry_at(books, BufferNumber(below))) {
            return below + 1;
        }
    }
    0
}

// The entry of number i becomes zero, and the numbers in use end where the last one is.
fn free_entry(books: &mut [u8], i: BufferNumber)
    requires { (24 + 20 * i.0 ≤ length books.old) × (4 + 20 * used_of books.old ≤ length books.old) }
    ensures { books.new ≡ freed books.old i.0 }
{
    let none = Entry {
        start: 0,
        capacity: ByteCount(0),
        length: ByteCount(0),
        hold: 0,
        listings: 0,
    };
    books::put_entry(books, i, none);
    let used = words::get32(books, 0);
    let top = top_used(books, used);
    words::put32(books, 0, top);
}

// The entry e for the free number i.
pub fn take_entry(books: &mut [u8], i: BufferNumber, e: Entry)
    requires { (24 + 20 * i.0 ≤ length books.old) × (i.0 < 65536) }
    ensures { books.new ≡ taken books.old i.0 e }
{
    let used = words::get32(books, 0);
    books::put_entry(books, i, e);
    if used <= i.0 {
        words::put32(books, 0, i.0 + 1);
    }
}

// Frees number i where nobody holds it and nothing lists it.
pub fn free_unused(books: &mut [u8], i: BufferNumber)
    requires { (24 + 20 * i.0 ≤ length books.old) × (4 + 20 * used_of books.old ≤ length books.old) }
    ensures { books.new ≡ free_unused books.old i.0 }
{
    if books::is_free(books::entry_at(books, i)) {
        free_entry(books, i);
    }
}
