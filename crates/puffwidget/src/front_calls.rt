// The front batch whole, for C: `capi_front` by its symbol.

ghost use Rattle.std.specs.Prelude.{◌≡◌};
ghost use Rattle.capi.specs.Api.{memory, told};
ghost use Rattle.capi_front.specs.Front.{front_read};

// The rows of the front batch; in `out`, of 512 bytes, 32 for each column: 8 bytes each where its values, its bitmap and its list begin in the slots, a word how many
// numbers the list has, and a word the bytes of a row.
#[unsafe(no_mangle)]
pub extern "C" fn pw_front_batch(
    state: &[u8],
    slots: &[u8],
    pool: &[u8],
    books: &[u8],
    out: &mut [u8],
) -> u64
    ensures { told result out.new ≡ front_read (memory state.now slots.now pool.now books.now) out.old }
{
    capi_front::pw_front_batch(state, slots, pool, books, out)
}
