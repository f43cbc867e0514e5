// The C layer, the front batch whole: its rows, and where its columns stand in the lent slots. docs/HOST.md has the signature.
#![tactic(auto)]

ghost use Rattle.std.specs.Prelude.{◌≡◌};
ghost use Rattle.capi.specs.Api.{memory, told};
ghost use Rattle.capi_front.specs.Front.{front_read};

// The rows of the front batch; in `out`, of 512 bytes, 32 for each column: 8 bytes each where its values, its bitmap and its list begin in the slots, a word how many
// numbers the list has, and a word the bytes of a row.
pub fn pw_front_batch(state: &[u8], slots: &[u8], pool: &[u8], books: &[u8], out: &mut [u8]) -> u64
    ensures { told result out.new ≡ front_read (memory state.now slots.now pool.now books.now) out.old }
{
    match capi::coded_state(state, slots, pool, books) {
        Ok(s) => {
            let front = fronts::front_batch(s, slots, pool, books, out);
            crossing::both(front.number, front.rows.0)
        }
        Err(refusal) => crossing::both(refusal, 0),
    }
}
