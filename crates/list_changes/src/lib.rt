// A number listed once more or once less, or let go by the caller; and each number of a list, as often as it stands there.
#![tactic(auto)]

ghost use Rattle.std.specs.Prelude.{◌≡◌, ◌+◌, ◌*◌, ◌≤◌, length};
ghost use Rattle.books.specs.Entry.{used_of};
ghost use Rattle.listings.specs.Listing.{one_more, listed_one, unlisted_one, released, over_list, Listed};

use counts::BufferNumber;

// One more listing, as far as a word goes.
fn one_more(k: u32) -> u32
    ensures { result ≡ one_more k }
{
    k.saturating_add(1)
}

// Number i is listed once more.
pub fn list_one(books: &mut [u8], i: BufferNumber)
    requires { 24 + 20 * i.0 ≤ length books.old }
    ensures { books.new ≡ listed_one books.old i.0 }
{
    let at = 4 + 20 * (i.0 as usize) + 16;
    let k = words::get32(books, at);
    words::put32(books, at, one_more(k));
}

// Number i is listed once less, and freed where that was the last of it.
pub fn unlist_one(books: &mut [u8], i: BufferNumber)
    requires { (24 + 20 * i.0 ≤ length books.old) × (4 + 20 * used_of books.old ≤ length books.old) }
    ensures { books.new ≡ unlisted_one books.old i.0 }
{
    let at = 4 + 20 * (i.0 as usize) + 16;
    let k = words::get32(books, at);
    if 0 < k {
        words::put32(books, at, k - 1);
    }
    listings::free_unused(books, i);
}

// The caller holds number i no longer, and it is freed where that was the last of it.
pub fn release(books: &mut [u8], i: BufferNumber)
    requires { (24 + 20 * i.0 ≤ length books.old) × (4 + 20 * used_of books.old ≤ length books.old) }
    ensures { books.new ≡ released books.old i.0 }
{
    words::put32(books, 4 + 20 * (i.0 as usize) + 12, 0);
    listings::free_unused(books, i);
}

// Each of the first `count` numbers of the list is listed once more, as often as it stands there.
pub fn list_all(books: &mut [u8], n: u32, list: &[u8], count: usize)
    requires { Listed books.old n list.now count }
    ensures { books.new ≡ over_list listed_one books.old list.now count }
{
    for i in 0..count {
        let k = words::get32(list, 4 * i);
        list_one(books, BufferNumber(k));
    }
}

// Each of the first `count` numbers of the list is listed once less, as often as it stands there.
// Kept: a twin of `list_all`; one function over the change would state what the change needs and makes, and be longer than both loops.
pub fn unlist_all(books: &mut [u8], n: u32, list: &[u8], count: usize)
    requires { Listed books.old n list.now count }
    ensures { books.new ≡ over_list unlisted_one books.old list.now count }
{
    for i in 0..count {
        let k = words::get32(list, 4 * i);
        unlist_one(books, BufferNumber(k));
    }
}
