// The C layer, reads of a row and of a buffer. docs/HOST.md has each signature; capi/specs/Api.antt says what each answers and leaves, on any bytes.
#![tactic(auto)]

ghost use Rattle.std.specs.Prelude.{◌≡◌};
ghost use Rattle.capi.specs.Api.{memory, told, buffer_number, buffer_read, row_in, row_read};

use counts::BufferNumber;
use state::RowAnswer;

// The refusal of a read of a buffer, or 0.
pub fn pw_buffer_refusal(state: &[u8], slots: &[u8], pool: &[u8], books: &[u8], buffer: u32) -> u32
    ensures { result ≡ buffer_number (memory state.now slots.now pool.now books.now) buffer }
{
    match capi::coded_state(state, slots, pool, books) {
        Ok(s) => buffers::buffer_refusal(s, slots, pool, books, BufferNumber(buffer)),
        Err(refusal) => refusal,
    }
}

// A buffer's bytes copied to the front of `out`, as far as both go: how many the buffer has, 0 where the read is refused.
pub fn pw_read_buffer(
    state: &[u8],
    slots: &[u8],
    pool: &[u8],
    books: &[u8],
    buffer: u32,
    out: &mut [u8],
) -> u64
    ensures { told result out.new ≡ buffer_read (memory state.now slots.now pool.now books.now) buffer out.old }
{
    match capi::coded_state(state, slots, pool, books) {
        Ok(s) => {
            let part = buffers::read_buffer(s, slots, pool, books, BufferNumber(buffer));
            let size = part.len() as u64;
            crossing::copy_front(out, part);
            size
        }
        Err(_) => 0,
    }
}

// What reading a row answers, or the refusal of bytes that code no state.
fn row_answer(
    state: &[u8],
    slots: &[u8],
    pool: &[u8],
    books: &[u8],
    column: u32,
    row: u32,
) -> RowAnswer
    ensures { result ≡ row_in (memory state.now slots.now pool.now books.now) column row }
{
    match capi::coded_state(state, slots, pool, books) {
        Ok(s) => rows::read_row(s, slots, pool, books, column, row),
        Err(refusal) => RowAnswer::Refused(refusal),
    }
}

// Row `row` of column `column` of the front batch, in the 20 bytes of `out`: five words, the first 0 for null. 0, or the number of the
// refusal and nothing written; 1 where `out` is not of 20 bytes.
pub fn pw_read_row(
    state: &[u8],
    slots: &[u8],
    pool: &[u8],
    books: &[u8],
    column: u32,
    row: u32,
    out: &mut [u8],
) -> u32
    ensures { told result out.new ≡ row_read (memory state.now slots.now pool.now books.now) column row out.old }
{
    if out.len() == 20 {
        let answer = row_answer(state, slots, pool, books, column, row);
        crossing::put_answer(out, answer)
    } else {
        1
    }
}
