// The steps of a push, once there is room for all of them: parts copied and finished, or a batch queued whole.
// From arrow-select 60.0.0, src/coalesce.rs: the body of `push_batch`.
#![tactic(auto)]

ghost use Rattle.std.specs.Prelude.{◌≡◌, ◌+◌, ◌<◌, [], length};
ghost use Rattle.state.specs.World.{world, column_of};
ghost use Rattle.state.specs.Layout.{slots_length};
ghost use Rattle.rules.specs.Batch.{batch, record_of};
ghost use Rattle.rules.specs.declared.Way.{Way};
ghost use Rattle.rules.specs.Steps.{ok};
ghost use Rattle.rules.specs.Push.{stepped};
ghost use Rattle.rules.specs.Turns.{coalesced};
ghost use Rattle.columns.specs.Pushing.{Pushing};
ghost use Rattle.rules.specs.Leaves.{Steps};
ghost use Rattle.routes.specs.Sourced.{Sourced};
ghost use Rattle.in_progress.specs.Part.{Part, Decided, copied_by};
ghost use Rattle.steps.specs.Taking.{Taking, Takes, TakesThen, Cutting};

use byte_view::Source;
use counts::RowCount;
use primitive::Rows;
use routes::{Route, Sources};
use rules::{ColumnRecord, Step, Way};
use state::BatchCoalescer;

// Rows of one column, copied.
fn copy_column(
    s: BatchCoalescer,
    slots: &mut [u8],
    pool: &mut [u8],
    books: &mut [u8],
    records: &[u8],
    body: &[u8],
    rows: RowCount,
    source: Source,
    p: Rows,
) -> Step
    requires { (Part (world s slots.old pool.old books.old) (batch rows.0 records.now body.now) (record_of (batch rows.0 records.now body.now) p.column) p)
        × (Decided (world s slots.old pool.old books.old) (batch rows.0 records.now body.now) p.column source) }
    ensures { Steps (copied_by (world s slots.old pool.old books.old) (batch rows.0 records.now body.now) p source.way)
        result slots.new pool.new books.new }
{
    let r = records::record_at(records, p.column);
    in_progress::copy_rows(s, slots, pool, books, records, body, rows, r, source, p)
}

// Rows of one column that is copied as it stands. It changes no state, so none is handed back: the state is 300 bytes, and copying it for each
// column of numbers cost as much as the numbers.
fn copy_as_is(
    s: BatchCoalescer,
    slots: &mut [u8],
    pool: &[u8],
    books: &[u8],
    records: &[u8],
    body: &[u8],
    rows: RowCount,
    kind: u32,
    p: Rows,
)
    requires { (Part (world s slots.old pool.now books.now) (batch rows.0 records.now body.now) (record_of (batch rows.0 records.now body.now) p.column) p)
        × (kind ≡ (column_of s p.column).kind) }
    ensures { copied_by (world s slots.old pool.now books.now) (batch rows.0 records.now body.now) p Way.Copied
        ≡ ok (world s slots.new pool.now books.now) }
{
    let r = records::record_at(records, p.column);
    let width = layout::width_in(kind);
    let begin = p.place + (s.rows.0 as usize) * width;
    let size = layout::bitmap_bytes(s);
    primitive::copy_rows(slots, begin, size, body, r, width, p);
}

// n rows of every column from row `from` on, copied and buffered.
fn copy_part(
    s: BatchCoalescer,
    slots: &mut [u8],
    pool: &mut [u8],
    books: &mut [u8],
    records: &[u8],
    body: &[u8],
    rows: RowCount,
    sources: Sources,
    from: u32,
    n: RowCount,
) -> Step
    requires { Taking (world s slots.old pool.old books.old) (batch rows.0 records.now body.now) sources from n.0 }
    ensures { Takes (world s slots.old pool.old books.old) (batch rows.0 records.now body.now) sources from n.0
        result slots.new pool.new books.new }
{
    let mut t = s;
    let mut place = layout::values_place(s, s.place, 0);
    for c in 0..s.columns {
        let at = c as usize;
        let source = sources.column[at];
        let p = Rows {
            column: c,
            place,
            at: s.buffered.0,
            from,
            count: n,
        };
        let column = s.column[at];
        let kind = column.kind;
        place += layout::column_size(kind, s.rows, s.lists);
        let way = source.way;
        if let Way::Copied = way {
            copy_as_is(t, slots, pool, books, records, body, rows, kind, p);
            continue;
        }
        let step = copy_column(t, slots, pool, books, records, body, rows, source, p);
        if step.number != 0 {
            return step;
        }
        t = step.state;
    }
    let buffered = RowCount(s.buffered.0 + n.0);
    t.buffered = buffered;
    Step {
        state: t,
        number: 0,
    }
}

// A part, then finishing if the slot is full.
fn copy_and_finish(
    s: BatchCoalescer,
    slots: &mut [u8],
    pool: &mut [u8],
    books: &mut [u8],
    records: &[u8],
    body: &[u8],
    rows: RowCount,
    sources: Sources,
    from: u32,
    n: RowCount,
) -> Step
    requires { Taking (world s slots.old pool.old books.old) (batch rows.0 records.now body.now) sources from n.0 }
    ensures { TakesThen (world s slots.old pool.old books.old) (batch rows.0 records.now body.now) sources from n.0
        result slots.new pool.new books.new }
{
    let step = copy_part(s, slots, pool, books, records, body, rows, sources, from, n);
    if step.number == 0 {
        let t = step.state;
        finishing::finish_full(t, slots, books)
    } else {
        step
    }
}

// Steps 3 and 4.
fn coalesce_rows(
    s: BatchCoalescer,
    slots: &mut [u8],
    pool: &mut [u8],
    books: &mut [u8],
    records: &[u8],
    body: &[u8],
    rows: RowCount,
    sources: Sources,
) -> Step
    requires { Cutting (world s slots.old pool.old books.old) (batch rows.0 records.now body.now) sources }
    ensures { Steps (coalesced rows.0 (world s slots.old pool.old books.old) (world s slots.old pool.old books.old) (batch rows.0 records.now body.now) 0)
        result slots.new pool.new books.new }
{
    let mut t = s;
    let mut from: u32 = 0;
    // Kept: no range has these turns, each goes on by the rows that the slot still takes.
    while t.target.0 - t.buffered.0 < rows.0 - from {
        let n = RowCount(t.target.0 - t.buffered.0);
        let step = copy_and_finish(t, slots, pool, books, records, body, rows, sources, from, n);
        if step.number != 0 {
            return step;
        }
        t = step.state;
        from += n.0;
    }
    copy_and_finish(
        t,
        slots,
        pool,
        books,
        records,
        body,
        rows,
        sources,
        from,
        RowCount(rows.0 - from),
    )
}

// Steps 2 to 4 of a push.
pub fn push_rows(
    s: BatchCoalescer,
    slots: &mut [u8],
    pool: &mut [u8],
    books: &mut [u8],
    records: &[u8],
    body: &[u8],
    sources: Sources,
    rows: RowCount,
) -> Step
    requires { (Pushing s books.old (batch rows.0 records.now body.now)) × (Sourced sources (world s [] [] books.old) (batch rows.0 records.now body.now))
        × (length slots.old ≡ slots_length s) × (length pool.old ≡ s.pool.0) }
    ensures { Steps (stepped (world s slots.old pool.old books.old) (batch rows.0 records.now body.now))
        result slots.new pool.new books.new }
{
    let route = routes::route_of(s, rows);
    match route {
        Route::Coalesce => coalesce_rows(s, slots, pool, books, records, body, rows, sources),
        Route::Whole => whole::queue_whole(s, slots, books, records, body, rows),
        Route::FinishFirst => whole::finish_first(s, slots, books, records, body, rows),
    }
}
