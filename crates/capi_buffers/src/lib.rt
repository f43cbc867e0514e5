// The C layer, the caller's buffers: registered and let go. docs/HOST.md has each signature; capi/specs/Api.antt says what each answers and leaves, on any bytes.
#![tactic(auto)]

ghost use Rattle.std.specs.Prelude.{◌≡◌};
ghost use Rattle.capi.specs.Api.{memory, said, number, both, registering, letting_go, called};

use counts::{BufferNumber, ByteCount};

// Registers bytes with a capacity: the refusal, and the buffer's number.
pub fn pw_register_buffer(
    state: &[u8],
    slots: &[u8],
    pool: &mut [u8],
    books: &mut [u8],
    bytes: &[u8],
    capacity: u32,
) -> u64
    ensures { said result (memory state.now slots.now pool.new books.new)
        ≡ called both (registering bytes.now capacity) (memory state.now slots.now pool.old books.old) }
{
    match capi::coded_state(state, slots, pool, books) {
        Ok(s) => {
            let answer = buffers::register_buffer(
                s,
                slots,
                pool,
                books,
                bytes,
                ByteCount(capacity),
            );
            crossing::registered_pair(answer)
        }
        Err(refusal) => crossing::both(refusal, 0),
    }
}

// Lets a buffer go: 0, or the number of the refusal.
pub fn pw_let_go(state: &[u8], slots: &[u8], pool: &[u8], books: &mut [u8], buffer: u32) -> u32
    ensures { said result (memory state.now slots.now pool.now books.new)
        ≡ called number (letting_go buffer) (memory state.now slots.now pool.now books.old) }
{
    match capi::coded_state(state, slots, pool, books) {
        Ok(s) => buffers::let_go(s, slots, pool, books, BufferNumber(buffer)),
        Err(refusal) => refusal,
    }
}
