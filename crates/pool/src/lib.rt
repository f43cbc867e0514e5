// The pool: buffers registered and let go. They are read by `pool_reads`, bytes are copied within it by `carrying`, and 14's part about
// buffers is `buffer_ranges`.
// Stands for what the Rust does with `Buffer`: 01, "Lent memory".
#![tactic(auto)]

ghost use Rattle.std.specs.Prelude.{◌≡◌, ◌+◌, ◌*◌, ◌≤◌, ◌<◌, ◌^◌, length};
ghost use Rattle.books.specs.Entry.{used_of};
ghost use Rattle.pool.specs.Register.{registered, Registers, RegistersAt, let_go, LetsGo};

use books::Entry;
use counts::{BufferNumber, ByteCount, ByteSum};
use room::Room;

// The caller's bytes at the room that was chosen, under its hold.
fn register_at(books: &mut [u8], pool: &mut [u8], r: Room, bytes: &[u8], capacity: ByteCount)
    requires { (24 + 20 * r.number.0 ≤ length books.old) × (r.number.0 < 65536)
        × (r.start + length bytes.now ≤ length pool.old) × (length bytes.now < 2 ^ 32) }
    ensures { RegistersAt books.old pool.old r bytes.now capacity.0 books.new pool.new }
{
    let e = Entry {
        start: r.start,
        capacity,
        length: ByteCount(bytes.len() as u32),
        hold: 1,
        listings: 0,
    };
    listings::take_entry(books, r.number, e);
    words::put_bytes(pool, r.start as usize, bytes);
}

// Registers bytes with a capacity: 13 where it is below their length, 11 without a number, 12 without a gap.
pub fn register(
    books: &mut [u8],
    pool: &mut [u8],
    n: u32,
    bytes: &[u8],
    capacity: ByteCount,
) -> Result<BufferNumber, u32>
    requires { (used_of books.old ≤ n) × (4 + 20 * n ≤ length books.old) × (n ≤ 65536) × (length pool.old < 2 ^ 32) }
    ensures { Registers (registered books.old pool.old n bytes.now capacity.0) books.new pool.new result }
{
    if (capacity.0 as usize) < bytes.len() {
        return Err(13);
    }
    let size = ByteCount(pool.len() as u32);
    let r = making_room::choose(books, n, size, ByteSum(capacity.0 as u64))?;
    register_at(books, pool, r, bytes, capacity);
    Ok(r.number)
}

// The caller lets a buffer go: 0, or 13 where it isn't there or isn't the caller's to let go.
// Kept: a number, since `buffers` hands it on to the C interface as it is.
pub fn let_go(books: &mut [u8], number: BufferNumber) -> u32
    requires { 4 + 20 * used_of books.old ≤ length books.old }
    ensures { LetsGo (let_go books.old number.0) books.new result }
{
    let used = words::get32(books, 0);
    if used <= number.0 {
        return 13;
    }
    let e = books::entry_at(books, number);
    if e.hold == 0 {
        return 13;
    }
    list_changes::release(books, number);
    0
}
