// The C layer, batches in and out: push, finish, drop. docs/HOST.md has each signature; capi/specs/Api.antt says what each answers and leaves, on any bytes.
#![tactic(auto)]

ghost use Rattle.std.specs.Prelude.{◌≡◌};
ghost use Rattle.rules.specs.Batch.{batch};
ghost use Rattle.capi.specs.Api.{memory, said, number, both, pushing, finishing, dropping, called};

use counts::RowCount;

// push_batch: 0, or the number of the refusal and nothing changed.
pub fn pw_push_batch(
    state: &mut [u8],
    slots: &mut [u8],
    pool: &mut [u8],
    books: &mut [u8],
    records: &[u8],
    body: &[u8],
    rows: u32,
) -> u32
    ensures { said result (memory state.new slots.new pool.new books.new)
        ≡ called number (pushing (batch rows records.now body.now)) (memory state.old slots.old pool.old books.old) }
{
    match capi::coded_state(state, slots, pool, books) {
        Ok(s) => {
            let step = coalesce::push_batch(s, slots, pool, books, records, body, RowCount(rows));
            let pushed = step.state;
            crossing::keep(state, step.number, pushed)
        }
        Err(refusal) => refusal,
    }
}

// finish_buffered_batch: 0, or the number of the refusal and nothing changed.
pub fn pw_finish_buffered_batch(
    state: &mut [u8],
    slots: &mut [u8],
    pool: &[u8],
    books: &mut [u8],
) -> u32
    ensures { said result (memory state.new slots.new pool.now books.new)
        ≡ called number finishing (memory state.old slots.old pool.now books.old) }
{
    match capi::coded_state(state, slots, pool, books) {
        Ok(s) => {
            let step = buffered::finish_buffered_batch(s, slots, pool, books);
            let finished = step.state;
            crossing::keep(state, step.number, finished)
        }
        Err(refusal) => refusal,
    }
}

// next_completed_batch: the refusal, and the rows of the batch that was dropped.
pub fn pw_next_completed_batch(state: &mut [u8], slots: &[u8], pool: &[u8], books: &mut [u8]) -> u64
    ensures { said result (memory state.new slots.now pool.now books.new)
        ≡ called both dropping (memory state.old slots.now pool.now books.old) }
{
    match capi::coded_state(state, slots, pool, books) {
        Ok(s) => {
            let dropped = completed::next_completed_batch(s, slots, pool, books);
            let t = dropped.state;
            let refusal = crossing::keep(state, dropped.number, t);
            crossing::both(refusal, dropped.rows.0)
        }
        Err(refusal) => crossing::both(refusal, 0),
    }
}
