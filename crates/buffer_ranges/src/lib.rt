// 01's refusal 14, its part about buffers: "a buffer past the pool or longer than its capacity".
#![tactic(auto)]

ghost use Rattle.std.specs.Prelude.{◌≡◌, ◌+◌, ◌*◌, ◌≤◌, length};
ghost use Rattle.pool.specs.Read.{fits_in, in_range};

use books::Entry;
use counts::{BufferNumber, ByteSum};

// Whether the entry is in the ranges of 14: within the pool, no longer than its capacity, held or not.
#[tactic(auto, unfolding(pool::specs::Read::fits_in))]
fn fits_in(e: Entry, pool: ByteSum) -> bool
    ensures { result ≡ fits_in pool.0 e }
{
    (e.start as u64) + (e.capacity.0 as u64) <= pool.0 && e.length.0 <= e.capacity.0 && e.hold <= 1
}

// 14's part about buffers: whether every buffer in use is in range, and no more numbers are in use than there are.
pub fn books_in_range(books: &[u8], n: u32, pool: ByteSum) -> bool
    requires { 4 + 20 * n ≤ length books.now }
    ensures { result ≡ in_range books.now n pool.0 }
{
    let used = words::get32(books, 0);
    if n < used {
        return false;
    }
    for i in 0..used {
        if !fits_in(books::entry_at(books, BufferNumber(i)), pool) {
            return false;
        }
    }
    true
}
