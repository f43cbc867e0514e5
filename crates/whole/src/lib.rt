// A batch queued whole: the test of room, its columns laid into the slot being filled, views unchanged, and the slot queued.
// From arrow-select 60.0.0, src/coalesce.rs: the first lines of `push_batch`, where a large batch goes to `completed` as it is.
#![tactic(auto)]

ghost use Rattle.std.specs.Prelude.{◌≡◌, ◌+◌, ◌*◌, ◌≤◌, ◌<◌, [], length};
ghost use Rattle.layout.specs.Few.{Few};
ghost use Rattle.state.specs.World.{world};
ghost use Rattle.state.specs.Layout.{values_place, books_length};
ghost use Rattle.rules.specs.Batch.{batch, record_of};
ghost use Rattle.routes.specs.Route.{whole_refusal};
ghost use Rattle.whole.specs.Whole.{Rowed, LaysRows, Columned, LaysColumn, Wholly, LaysColumns, Asks, QueuesWhole, QueuesFirst};

use counts::RowCount;
use primitive::Rows;
use rules::{ColumnRecord, Step};
use state::BatchCoalescer;

// The test of room: 9, then 10 by columns. A trial asks it too.
pub fn try_whole(s: BatchCoalescer, books: &[u8], records: &[u8]) -> u32
    requires { (Few s) × (s.place ≤ s.queue) × (length books.now ≡ books_length s)
        × (length records.now ≡ 32 * s.columns) }
    ensures { result ≡ whole_refusal (world s [] [] books.now) (batch 0 records.now []) }
{
    if s.queue <= s.queued {
        return 9;
    }
    for c in 0..s.columns {
        let n = slot_counts::list_length(s, books, s.place, c);
        let count = records::record_at(records, c).count;
        if (s.lists as u64) < (n as u64) + (count as u64) {
            return 10;
        }
    }
    0
}

// Where the next column of the slot being filled begins.
fn next_place(s: BatchCoalescer, c: u32, place: usize) -> usize
    requires { (Few s) × (s.place ≤ s.queue) × (c < s.columns) × (place ≡ values_place s s.place c) }
    ensures { result ≡ values_place s s.place (c + 1) }
{
    let column = s.column[c as usize];
    place + layout::column_size(column.kind, s.rows, s.lists)
}

// Values and validity of column c of a whole batch in the slot being filled, views unchanged.
fn lay_rows(
    s: BatchCoalescer,
    slots: &mut [u8],
    records: &[u8],
    body: &[u8],
    rows: RowCount,
    r: ColumnRecord,
    c: u32,
    place: usize,
)
    requires { (Rowed s slots.old (batch rows.0 records.now body.now) c place) × (r ≡ record_of (batch rows.0 records.now body.now) c) }
    ensures { LaysRows s slots.old (batch rows.0 records.now body.now) c slots.new }
{
    let p = Rows {
        column: c,
        place,
        at: 0,
        from: 0,
        count: rows,
    };
    let width = layout::width_of(s, c);
    let begin = place + (s.rows.0 as usize) * width;
    let size = layout::bitmap_bytes(s);
    primitive::copy_rows(slots, begin, size, body, r, width, p);
}

// Column c of a whole batch in the slot being filled: views unchanged, the list as given.
fn copy_whole(
    s: BatchCoalescer,
    slots: &mut [u8],
    books: &mut [u8],
    records: &[u8],
    body: &[u8],
    rows: RowCount,
    c: u32,
    place: usize,
)
    requires { Columned s slots.old books.old (batch rows.0 records.now body.now) c place }
    ensures { LaysColumn s slots.old books.old (batch rows.0 records.now body.now) c slots.new books.new }
{
    let r = records::record_at(records, c);
    lay_rows(s, slots, records, body, rows, r, c, place);
    lists::append_list(s, slots, books, records, body, rows, r, c);
}

// Every column of it.
fn copy_columns(
    s: BatchCoalescer,
    slots: &mut [u8],
    books: &mut [u8],
    records: &[u8],
    body: &[u8],
    rows: RowCount,
)
    requires { Wholly s slots.old books.old (batch rows.0 records.now body.now) }
    ensures { LaysColumns s slots.old books.old (batch rows.0 records.now body.now) s.columns slots.new books.new }
{
    let mut place = layout::values_place(s, s.place, 0);
    for c in 0..s.columns {
        copy_whole(s, slots, books, records, body, rows, c, place);
        place = next_place(s, c, place);
    }
}

// A batch queued whole, where there is room.
pub fn queue_whole(
    s: BatchCoalescer,
    slots: &mut [u8],
    books: &mut [u8],
    records: &[u8],
    body: &[u8],
    rows: RowCount,
) -> Step
    requires { Asks s slots.old books.old (batch rows.0 records.now body.now) }
    ensures { QueuesWhole s slots.old books.old (batch rows.0 records.now body.now) result slots.new books.new }
{
    let number = try_whole(s, books, records);
    if number == 0 {
        copy_columns(s, slots, books, records, body, rows);
        let t = finishing::queue_slot(s, books, rows);
        Step {
            state: t,
            number: 0,
        }
    } else {
        Step { state: s, number }
    }
}

// Finishing, then the batch queued whole.
pub fn finish_first(
    s: BatchCoalescer,
    slots: &mut [u8],
    books: &mut [u8],
    records: &[u8],
    body: &[u8],
    rows: RowCount,
) -> Step
    requires { Asks s slots.old books.old (batch rows.0 records.now body.now) }
    ensures { QueuesFirst s slots.old books.old (batch rows.0 records.now body.now) result slots.new books.new }
{
    let step = finishing::finish(s, slots, books);
    if step.number == 0 {
        let t = step.state;
        queue_whole(t, slots, books, records, body, rows)
    } else {
        step
    }
}
