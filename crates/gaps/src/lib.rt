// The lowest free number, and the lowest gap in the pool that is long enough.
#![tactic(auto)]

ghost use Rattle.std.specs.Prelude.{◌≡◌, ◌+◌, ◌*◌, ◌≤◌, ◌<◌, ◌^◌, length};
ghost use Rattle.books.specs.Entry.{used_of};
ghost use Rattle.books.specs.Search.{lowest_free, lowest_gap, past_entry, swept_of};

use books::Entry;
use counts::{BufferNumber, ByteCount, ByteSum};

// The lowest free number below n.
pub fn lowest_free(books: &[u8], n: u32) -> Option<BufferNumber>
    requires { (used_of books.now ≤ n) × (4 + 20 * n ≤ length books.now) }
    ensures { result ≡ lowest_free books.now n }
{
    let used = words::get32(books, 0);
    for i in 0..used {
        if books::is_free(books::entry_at(books, BufferNumber(i))) {
            return Some(BufferNumber(i));
        }
    }
    if used < n {
        Some(BufferNumber(used))
    } else {
        None
    }
}

// The end of a live buffer that shares a byte with the `size` bytes from `at` on; `at` itself where it shares none.
fn past(e: Entry, at: u64, size: ByteSum) -> u64
    requires { at + size.0 < 2 ^ 64 }
    ensures { result ≡ past_entry e at size.0 }
{
    if books::is_free(e) {
        return at;
    }
    let start = e.start as u64;
    let end = start + (e.capacity.0 as u64);
    let from = counts::larger(start, at);
    let to = counts::smaller(end, at + size.0);
    if from < to { end } else { at }
}

// The start `at` moved past each buffer in turn that the `size` bytes from it on share a byte with.
fn sweep(books: &[u8], at: u64, size: ByteSum) -> u64
    requires { (4 + 20 * used_of books.now ≤ length books.now) × (at + size.0 < 2 ^ 32) }
    ensures { (result ≡ swept_of books.now size.0 at) × (result < 2 ^ 33) }
{
    let used = words::get32(books, 0);
    let mut next = at;
    for i in 0..used {
        next = past(books::entry_at(books, BufferNumber(i)), next, size);
    }
    next
}

// The lowest start of `size` bytes within the pool that share no byte with a live buffer. Sweeps until one changes nothing.
pub fn lowest_gap(books: &[u8], pool: ByteCount, size: ByteSum) -> Option<u32>
    requires { 4 + 20 * used_of books.now ≤ length books.now }
    ensures { result ≡ lowest_gap books.now pool.0 size.0 }
{
    let want = size.0;
    let end = pool.0 as u64;
    if end < want {
        return None;
    }
    let mut at: u64 = 0;
    // Kept: nothing is counted; each sweep says where the next one begins.
    while at <= end - want {
        let next = sweep(books, at, size);
        if next == at {
            return Some(at as u32);
        }
        at = next;
    }
    None
}
