// Reads of a row and of a buffer, for C: `capi_reads` by its symbols.

ghost use Rattle.std.specs.Prelude.{◌≡◌};
ghost use Rattle.capi.specs.Api.{memory, told, buffer_number, buffer_read, row_read};

// The refusal of a read of a buffer, or 0.
#[unsafe(no_mangle)]
pub extern "C" fn pw_buffer_refusal(
    state: &[u8],
    slots: &[u8],
    pool: &[u8],
    books: &[u8],
    buffer: u32,
) -> u32
    ensures { result ≡ buffer_number (memory state.now slots.now pool.now books.now) buffer }
{
    capi_reads::pw_buffer_refusal(state, slots, pool, books, buffer)
}

// A buffer's bytes copied to the front of `out`, as far as both go: how many the buffer has, 0 where the read is refused.
#[unsafe(no_mangle)]
pub extern "C" fn pw_read_buffer(
    state: &[u8],
    slots: &[u8],
    pool: &[u8],
    books: &[u8],
    buffer: u32,
    out: &mut [u8],
) -> u64
    ensures { told result out.new ≡ buffer_read (memory state.now slots.now pool.now books.now) buffer out.old }
{
    capi_reads::pw_read_buffer(state, slots, pool, books, buffer, out)
}

// Row `row` of column `column` of the front batch, in the 20 bytes of `out`: five words, the first 0 for null. 0, or the number of the
// refusal and nothing written; 1 where `out` is not of 20 bytes.
#[unsafe(no_mangle)]
pub extern "C" fn pw_read_row(
    state: &[u8],
    slots: &[u8],
    pool: &[u8],
    books: &[u8],
    column: u32,
    row: u32,
    out: &mut [u8],
) -> u32
    ensures { told result out.new ≡ row_read (memory state.now slots.now pool.now books.now) column row out.old }
{
    capi_reads::pw_read_row(state, slots, pool, books, column, row, out)
}
