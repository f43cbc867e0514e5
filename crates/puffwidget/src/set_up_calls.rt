// Set-up, for C: `capi_set_up` by its symbol.

ghost use Rattle.std.specs.Prelude.{◌≡◌, length};
ghost use Rattle.capi.specs.Api.{memory, said, asked_for, created};

// Set-up. `kinds` are words of 4 bytes, one a column. 0, or 1 and nothing changed.
#[unsafe(no_mangle)]
pub extern "C" fn pw_new(
    state: &mut [u8],
    slots: &[u8],
    pool: &[u8],
    books: &mut [u8],
    kinds: &[u8],
    target: u32,
    rows: u32,
    queue: u32,
    lists: u32,
    numbers: u32,
) -> u32
    ensures { said result (memory state.new slots.now pool.now books.new)
        ≡ created (asked_for target rows queue lists numbers kinds.now (length pool.now)) kinds.now (memory state.old slots.now pool.now books.old) }
{
    capi_set_up::pw_new(
        state, slots, pool, books, kinds, target, rows, queue, lists, numbers,
    )
}
