// Room for a buffer: the number and the start that it gets, and a block opened there, for good or on trial.
// Stands for `Vec::with_capacity` in `BufferSource::next_buffer` of src/coalesce/byte_view.rs.
#![tactic(auto)]

ghost use Rattle.std.specs.Prelude.{◌≡◌, ◌+◌, ◌*◌, ◌≤◌, length};
ghost use Rattle.books.specs.Entry.{used_of};
ghost use Rattle.room.specs.Room.{chosen, is_zero, opened_as, opened, tried, Opens};

use books::Entry;
use counts::{ByteCount, ByteSum};
use room::Room;

// The lowest free number and the lowest start for a capacity; refusal 11 without a number, 12 without a gap.
pub fn choose(books: &[u8], n: u32, pool: ByteCount, capacity: ByteSum) -> Result<Room, u32>
    requires { (used_of books.now ≤ n) × (4 + 20 * n ≤ length books.now) }
    ensures { result ≡ chosen books.now n pool.0 capacity.0 }
{
    let number = gaps::lowest_free(books, n).ok_or(11u32)?;
    let start = gaps::lowest_gap(books, pool, capacity).ok_or(12u32)?;
    Ok(Room { number, start })
}

// Whether an entry is zero.
#[tactic(auto, unfolding(room::specs::Room::is_zero))]
fn is_zero(e: Entry) -> bool
    ensures { result ≡ is_zero e }
{
    e.start == 0 && e.capacity.0 == 0 && e.length.0 == 0 && books::is_free(e)
}

// An empty buffer of the capacity, with the hold and the listings given; 14 where the entry of its number is not zero.
fn open_as(
    books: &mut [u8],
    n: u32,
    pool: ByteCount,
    capacity: ByteSum,
    hold: u32,
    listings: u32,
) -> Result<Room, u32>
    requires { (used_of books.old ≤ n) × (4 + 20 * n ≤ length books.old) × (n ≤ 65536) }
    ensures { Opens (opened_as books.old n pool.0 capacity.0 hold listings) books.new result }
{
    let r = choose(books, n, pool, capacity)?;
    let old = books::entry_at(books, r.number);
    if is_zero(old) {
        let e = Entry {
            start: r.start,
            capacity: ByteCount(capacity.0 as u32),
            length: ByteCount(0),
            hold,
            listings,
        };
        listings::take_entry(books, r.number, e);
        Ok(r)
    } else {
        Err(14)
    }
}

// A block for copied bytes: nobody holds it, and it counts as listed.
pub fn open_block(books: &mut [u8], n: u32, pool: ByteCount, capacity: ByteSum) -> Result<Room, u32>
    requires { (used_of books.old ≤ n) × (4 + 20 * n ≤ length books.old) × (n ≤ 65536) }
    ensures { Opens (opened books.old n pool.0 capacity.0) books.new result }
{
    open_as(books, n, pool, capacity, 0, 1)
}

// A block opened on trial: it takes its number and its room, and bears the trial's mark.
pub fn try_block(books: &mut [u8], n: u32, pool: ByteCount, capacity: ByteSum) -> Result<Room, u32>
    requires { (used_of books.old ≤ n) × (4 + 20 * n ≤ length books.old) × (n ≤ 65536) }
    ensures { Opens (tried books.old n pool.0 capacity.0) books.new result }
{
    open_as(books, n, pool, capacity, 2, 0)
}
