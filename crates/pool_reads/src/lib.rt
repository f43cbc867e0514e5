// Buffers of the pool read: the number of the refusal, and the part that a buffer fills.
#![tactic(auto)]

ghost use Rattle.std.specs.Prelude.{◌≡◌, ◌+◌, ◌*◌, ◌≤◌, length};
ghost use Rattle.books.specs.Entry.{used_of};
ghost use Rattle.pool.specs.Read.{part_of, read_refusal};
ghost use Rattle.pool_reads.specs.Place.{part_start, PartAt};

use counts::BufferNumber;

// The number of the refusal of a read of a buffer: 0, or 13 where it isn't there.
// Kept: a number, since `buffers::buffer_refusal` hands it on to the C interface as it is.
pub fn buffer_refusal(books: &[u8], pool: &[u8], number: BufferNumber) -> u32
    requires { 4 + 20 * used_of books.now ≤ length books.now }
    ensures { result ≡ read_refusal books.now pool.now number.0 }
{
    let used = words::get32(books, 0);
    if used <= number.0 {
        return 13;
    }
    let e = books::entry_at(books, number);
    if books::is_free(e) {
        return 13;
    }
    let end = (e.start as usize) + (e.length.0 as usize);
    if end <= pool.len() { 0 } else { 13 }
}

// The part of the pool that a buffer fills, and an empty part where the read is refused.
pub fn buffer_part<'a>(books: &[u8], pool: &'a [u8], number: BufferNumber) -> &'a [u8]
    requires { 4 + 20 * used_of books.now ≤ length books.now }
    ensures result_value { result.now ≡ part_of books.now pool.now number.0 }
    ensures part_at { PartAt pool.entry.ref_ptr result.ref_ptr (part_start books.now pool.now number.0) }
{
    if buffer_refusal(books, pool, number) == 0 {
        let e = books::entry_at(books, number);
        let start = e.start as usize;
        let end = start + (e.length.0 as usize);
        &pool[start..end]
    } else {
        &pool[..0]
    }
}
