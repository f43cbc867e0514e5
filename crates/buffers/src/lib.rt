// The calls on the caller's buffers, behind the tests of 1 and 14: registered, let go, read. Added by the port.
#![tactic(auto)]

ghost use Rattle.std.specs.Prelude.{◌≡◌};
ghost use Rattle.state.specs.World.{world};
ghost use Rattle.rules.specs.Calls.{register_call, let_go_call, buffer_number_call, buffer_call};
ghost use Rattle.pool_reads.specs.Place.{PartAt};
ghost use Rattle.buffers.specs.Buffers.{RegistersCall, LetsGoCall, buffer_start};

use counts::{BufferNumber, ByteCount};
use state::BatchCoalescer;

// Registers bytes with a capacity; the caller holds the buffer. 13, 11, 12.
pub fn register_buffer(
    s: BatchCoalescer,
    slots: &[u8],
    pool: &mut [u8],
    books: &mut [u8],
    bytes: &[u8],
    capacity: ByteCount,
) -> Result<BufferNumber, u32>
    ensures { RegistersCall (register_call (world s slots.now pool.old books.old) bytes.now capacity.0) pool.new books.new result }
{
    let number = ranges::tested(s, slots, pool, books);
    if number == 0 {
        pool::register(books, pool, s.numbers, bytes, capacity)
    } else {
        Err(number)
    }
}

// The caller lets a buffer go: 0, or the number of the refusal. 13.
pub fn let_go(
    s: BatchCoalescer,
    slots: &[u8],
    pool: &[u8],
    books: &mut [u8],
    buffer: BufferNumber,
) -> u32
    ensures { LetsGoCall (let_go_call (world s slots.now pool.now books.old) buffer.0) books.new result }
{
    let number = ranges::tested(s, slots, pool, books);
    if number == 0 {
        pool::let_go(books, buffer)
    } else {
        number
    }
}

// The number of the refusal of a read of a buffer, or 0. 13.
pub fn buffer_refusal(
    s: BatchCoalescer,
    slots: &[u8],
    pool: &[u8],
    books: &[u8],
    buffer: BufferNumber,
) -> u32
    ensures { result ≡ buffer_number_call (world s slots.now pool.now books.now) buffer.0 }
{
    let number = ranges::tested(s, slots, pool, books);
    if number == 0 {
        pool_reads::buffer_refusal(books, pool, buffer)
    } else {
        number
    }
}

// The part of the pool that a buffer fills, and an empty part where the read is refused.
pub fn read_buffer<'a>(
    s: BatchCoalescer,
    slots: &[u8],
    pool: &'a [u8],
    books: &[u8],
    buffer: BufferNumber,
) -> &'a [u8]
    ensures result_value { result.now ≡ buffer_call (world s slots.now pool.now books.now) buffer.0 }
    ensures part_at { PartAt pool.entry.ref_ptr result.ref_ptr (buffer_start (world s slots.now pool.now books.now) buffer.0) }
{
    if ranges::tested(s, slots, pool, books) == 0 {
        pool_reads::buffer_part(books, pool, buffer)
    } else {
        &pool[..0]
    }
}
