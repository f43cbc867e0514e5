// The exported functions, each beside what the theorems say of it: a function here makes one call of the C layer, and promises the step that a
// history on bytes is made of (promise/specs/OnBytes.antt). So a promise of the C layer that says less than the theorems use is refused here.
#![tactic(auto)]

ghost use Rattle.std.specs.Prelude.{length};
ghost use Rattle.rules.specs.Batch.{batch};
ghost use Rattle.capi.specs.Api.{memory, asked_for};
ghost use Rattle.history.specs.Call.{finish, drop, register, let_go};
ghost use Rattle.promise.specs.OnBytes.{Sent, SentPush, SentLimit, SentNew};
ghost use Rattle.sent.specs.Reads.{ReadsRow, ReadsBuffer, ReadsFront, ReadsRefusal, ReadsLimit, ReadsRows, ReadsCompleted, ReadsEmpty};

// ---- calls that change memory

pub fn new(
    state: &mut [u8],
    slots: &[u8],
    pool: &[u8],
    books: &mut [u8],
    kinds: &[u8],
    target: u32,
    rows: u32,
    queue: u32,
    lists: u32,
    numbers: u32,
) -> u32
    ensures { SentNew (asked_for target rows queue lists numbers kinds.now (length pool.now)) kinds.now
        (memory state.old slots.now pool.now books.old) result
        (memory state.new slots.now pool.now books.new) }
{
    capi_set_up::pw_new(
        state, slots, pool, books, kinds, target, rows, queue, lists, numbers,
    )
}

pub fn push_batch(
    state: &mut [u8],
    slots: &mut [u8],
    pool: &mut [u8],
    books: &mut [u8],
    records: &[u8],
    body: &[u8],
    rows: u32,
) -> u32
    ensures { SentPush (memory state.old slots.old pool.old books.old)
        (batch rows records.now body.now) result
        (memory state.new slots.new pool.new books.new) }
{
    capi_batches::pw_push_batch(state, slots, pool, books, records, body, rows)
}

pub fn finish_buffered_batch(
    state: &mut [u8],
    slots: &mut [u8],
    pool: &[u8],
    books: &mut [u8],
) -> u32
    ensures { Sent (memory state.old slots.old pool.now books.old) finish result
        (memory state.new slots.new pool.now books.new) }
{
    capi_batches::pw_finish_buffered_batch(state, slots, pool, books)
}

pub fn next_completed_batch(state: &mut [u8], slots: &[u8], pool: &[u8], books: &mut [u8]) -> u64
    ensures { Sent (memory state.old slots.now pool.now books.old) drop result
        (memory state.new slots.now pool.now books.new) }
{
    capi_batches::pw_next_completed_batch(state, slots, pool, books)
}

pub fn register_buffer(
    state: &[u8],
    slots: &[u8],
    pool: &mut [u8],
    books: &mut [u8],
    bytes: &[u8],
    capacity: u32,
) -> u64
    ensures { Sent (memory state.now slots.now pool.old books.old) (register bytes.now capacity) result
        (memory state.now slots.now pool.new books.new) }
{
    capi_buffers::pw_register_buffer(state, slots, pool, books, bytes, capacity)
}

pub fn let_go(state: &[u8], slots: &[u8], pool: &[u8], books: &mut [u8], buffer: u32) -> u32
    ensures { Sent (memory state.now slots.now pool.now books.old) (let_go buffer) result
        (memory state.now slots.now pool.now books.new) }
{
    capi_buffers::pw_let_go(state, slots, pool, books, buffer)
}

pub fn set_biggest_coalesce_batch_size(state: &mut [u8], set: u32, rows: u32) -> u32
    ensures { SentLimit set rows state.old result state.new }
{
    capi_state::pw_set_biggest_coalesce_batch_size(state, set, rows)
}

// ---- reads

pub fn read_row(
    state: &[u8],
    slots: &[u8],
    pool: &[u8],
    books: &[u8],
    column: u32,
    row: u32,
    out: &mut [u8],
) -> u32
    ensures { ReadsRow (memory state.now slots.now pool.now books.now) column row out.old result out.new }
{
    capi_reads::pw_read_row(state, slots, pool, books, column, row, out)
}

pub fn read_buffer(
    state: &[u8],
    slots: &[u8],
    pool: &[u8],
    books: &[u8],
    buffer: u32,
    out: &mut [u8],
) -> u64
    ensures { ReadsBuffer (memory state.now slots.now pool.now books.now) buffer out.old result out.new }
{
    capi_reads::pw_read_buffer(state, slots, pool, books, buffer, out)
}

pub fn front_batch(state: &[u8], slots: &[u8], pool: &[u8], books: &[u8], out: &mut [u8]) -> u64
    ensures { ReadsFront (memory state.now slots.now pool.now books.now) out.old result out.new }
{
    capi_front::pw_front_batch(state, slots, pool, books, out)
}

pub fn buffer_refusal(state: &[u8], slots: &[u8], pool: &[u8], books: &[u8], buffer: u32) -> u32
    ensures { ReadsRefusal (memory state.now slots.now pool.now books.now) buffer result }
{
    capi_reads::pw_buffer_refusal(state, slots, pool, books, buffer)
}

pub fn biggest_coalesce_batch_size(state: &[u8]) -> u64
    ensures { ReadsLimit state.now result }
{
    capi_state::pw_biggest_coalesce_batch_size(state)
}

pub fn get_buffered_rows(state: &[u8]) -> u32
    ensures { ReadsRows state.now result }
{
    capi_state::pw_get_buffered_rows(state)
}

pub fn has_completed_batch(state: &[u8]) -> u32
    ensures { ReadsCompleted state.now result }
{
    capi_state::pw_has_completed_batch(state)
}

pub fn is_empty(state: &[u8]) -> u32
    ensures { ReadsEmpty state.now result }
{
    capi_state::pw_is_empty(state)
}
