// The caller's buffers, for C: `capi_buffers` by its symbols.

ghost use Rattle.std.specs.Prelude.{◌≡◌};
ghost use Rattle.capi.specs.Api.{memory, said, number, both, registering, letting_go, called};

// Registers bytes with a capacity: the refusal, and the buffer's number.
#[unsafe(no_mangle)]
pub extern "C" fn pw_register_buffer(
    state: &[u8],
    slots: &[u8],
    pool: &mut [u8],
    books: &mut [u8],
    bytes: &[u8],
    capacity: u32,
) -> u64
    ensures { said result (memory state.now slots.now pool.new books.new)
        ≡ called both (registering bytes.now capacity) (memory state.now slots.now pool.old books.old) }
{
    capi_buffers::pw_register_buffer(state, slots, pool, books, bytes, capacity)
}

// Lets a buffer go: 0, or the number of the refusal.
#[unsafe(no_mangle)]
pub extern "C" fn pw_let_go(
    state: &[u8],
    slots: &[u8],
    pool: &[u8],
    books: &mut [u8],
    buffer: u32,
) -> u32
    ensures { said result (memory state.now slots.now pool.now books.new)
        ≡ called number (letting_go buffer) (memory state.now slots.now pool.now books.old) }
{
    capi_buffers::pw_let_go(state, slots, pool, books, buffer)
}
