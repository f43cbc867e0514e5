// Batches in and out, for C: `capi_batches` by its symbols.

ghost use Rattle.std.specs.Prelude.{◌≡◌};
ghost use Rattle.rules.specs.Batch.{batch};
ghost use Rattle.capi.specs.Api.{memory, said, number, both, pushing, finishing, dropping, called};

// push_batch: 0, or the number of the refusal and nothing changed.
#[unsafe(no_mangle)]
pub extern "C" fn pw_push_batch(
    state: &mut [u8],
    slots: &mut [u8],
    pool: &mut [u8],
    books: &mut [u8],
    records: &[u8],
    body: &[u8],
    rows: u32,
) -> u32
    ensures { said result (memory state.new slots.new pool.new books.new)
        ≡ called number (pushing (batch rows records.now body.now)) (memory state.old slots.old pool.old books.old) }
{
    capi_batches::pw_push_batch(state, slots, pool, books, records, body, rows)
}

// finish_buffered_batch: 0, or the number of the refusal and nothing changed.
#[unsafe(no_mangle)]
pub extern "C" fn pw_finish_buffered_batch(
    state: &mut [u8],
    slots: &mut [u8],
    pool: &[u8],
    books: &mut [u8],
) -> u32
    ensures { said result (memory state.new slots.new pool.now books.new)
        ≡ called number finishing (memory state.old slots.old pool.now books.old) }
{
    capi_batches::pw_finish_buffered_batch(state, slots, pool, books)
}

// next_completed_batch: the refusal, and the rows of the batch that was dropped.
#[unsafe(no_mangle)]
pub extern "C" fn pw_next_completed_batch(
    state: &mut [u8],
    slots: &[u8],
    pool: &[u8],
    books: &mut [u8],
) -> u64
    ensures { said result (memory state.new slots.now pool.now books.new)
        ≡ called both dropping (memory state.old slots.now pool.now books.old) }
{
    capi_batches::pw_next_completed_batch(state, slots, pool, books)
}
