// The C layer, set-up. docs/HOST.md has its signature; capi/specs/Api.antt says what it answers and leaves, on any bytes.
#![tactic(auto)]

ghost use Rattle.std.specs.Prelude.{◌≡◌, length};
ghost use Rattle.capi.specs.Api.{memory, said, asked_for, askable, created};

use codes::STATE_BYTES;
use counts::{ByteCount, RowCount};
use set_up::Wanted;

// Whether set-up can be asked for: a state of 304 bytes, at most 16 kinds in whole words, and a pool whose length is a number of it.
fn is_askable(state: usize, kinds: usize, pool: usize) -> bool
    ensures { result ≡ askable state kinds pool }
{
    (state == STATE_BYTES) & ((kinds <= 64) & ((kinds % 4 == 0) & (pool <= 4294967295)))
}

// Set-up. `kinds` are words of 4 bytes, one a column. 0, or 1 and nothing changed.
// Kept: slices and numbers one by one, here and in all of the C layer, as the exports of `puffwidget` pass them on.
pub fn pw_new(
    state: &mut [u8],
    slots: &[u8],
    pool: &[u8],
    books: &mut [u8],
    kinds: &[u8],
    target: u32,
    rows: u32,
    queue: u32,
    lists: u32,
    numbers: u32,
) -> u32
    ensures { said result (memory state.new slots.now pool.now books.new)
        ≡ created (asked_for target rows queue lists numbers kinds.now (length pool.now)) kinds.now (memory state.old slots.now pool.now books.old) }
{
    if is_askable(state.len(), kinds.len(), pool.len()) {
        let wanted = Wanted {
            target: RowCount(target),
            rows: RowCount(rows),
            queue,
            columns: (kinds.len() / 4) as u32,
            kinds: crossing::kinds_of(kinds),
            lists,
            numbers,
            pool: ByteCount(pool.len() as u32),
        };
        let step = set_up::new_coalescer(wanted, slots, pool, books);
        crossing::keep(state, step.number, step.state)
    } else {
        1
    }
}
