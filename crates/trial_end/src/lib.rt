// The end of a trial: the books as they were.
#![tactic(auto)]

ghost use Rattle.std.specs.Prelude.{◌≡◌, ◌+◌, ◌*◌, ◌≤◌, length};
ghost use Rattle.books.specs.Entry.{used_of};
ghost use Rattle.room.specs.Trial.{wiped_of, untried};

use books::Entry;
use counts::{BufferNumber, ByteCount};

// The entry of number i becomes zero if it bears the trial's mark.
fn wipe_one(books: &mut [u8], i: BufferNumber)
    requires { 24 + 20 * i.0 ≤ length books.old }
    ensures { books.new ≡ wiped_of books.old i.0 }
{
    let e = books::entry_at(books, i);
    if e.hold == 2 {
        let none = Entry {
            start: 0,
            capacity: ByteCount(0),
            length: ByteCount(0),
            hold: 0,
            listings: 0,
        };
        books::put_entry(books, i, none);
    }
}

// The end of a trial: what it marked becomes zero, and the numbers in use are again those at its beginning.
pub fn end_trial(books: &mut [u8], used: u32)
    requires { 4 + 20 * used_of books.old ≤ length books.old }
    ensures { books.new ≡ untried books.old used }
{
    let top = words::get32(books, 0);
    for i in 0..top {
        wipe_one(books, BufferNumber(i));
    }
    words::put32(books, 0, used);
}
