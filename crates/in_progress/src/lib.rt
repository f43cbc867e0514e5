// One column of the slot being filled: a part of a batch copied into it, lists attached.
// From arrow-select 60.0.0, src/coalesce/byte_view.rs: `InProgressByteViewArray::copy_rows`; src/coalesce/primitive.rs: `copy_rows`.
#![tactic(auto)]

ghost use Rattle.std.specs.Prelude.{◌≡◌, [], ◌+◌, ◌*◌, ◌-◌, ◌≤◌, ◌<◌, length};
ghost use Rattle.std.specs.Prelude.{Some};
ghost use Rattle.state.specs.World.{world, column_of};
ghost use Rattle.state.specs.Layout.{list_length};
ghost use Rattle.rules.specs.declared.Way.{Way};
ghost use Rattle.rules.specs.Batch.{batch};
ghost use Rattle.rules.specs.Steps.{ok};
ghost use Rattle.rules.specs.Views.{span, closed, part_compacted};
ghost use Rattle.rules.specs.Leaves.{Steps};
ghost use Rattle.in_progress.specs.Part.{Part, ViewPart, AnyPart, RoomInOpen, Walks, Decided, first_rows, rows_behind, long_of, compacting, opened_for, walked_on, copied_by, AttachesPart, RaisesPart};

use byte_view::{Copying, Source};
use counts::{BufferNumber, ByteSum, RowCount};
use primitive::Rows;
use rules::{ColumnRecord, Step, Way};
use state::BatchCoalescer;

// The views of a part, with their bytes in block k.
fn copy_strings(
    s: BatchCoalescer,
    slots: &mut [u8],
    pool: &mut [u8],
    books: &mut [u8],
    records: &[u8],
    body: &[u8],
    rows: RowCount,
    r: ColumnRecord,
    p: Rows,
    k: BufferNumber,
)
    requires { (RoomInOpen (world s slots.old pool.old books.old) (batch rows.0 records.now body.now) r p) × ((column_of s p.column).block ≡ Some k) }
    ensures { compacting (world s slots.old pool.old books.old) (batch rows.0 records.now body.now) p
        ≡ ok (world s slots.new pool.new books.new) }
{
    let block = books::entry_at(books, k);
    let index = slot_counts::list_length(s, books, s.place, p.column);
    let j = Copying {
        from: (r.values as usize) + (p.from as usize) * 16,
        list: r.list as usize,
        count: r.count,
        to: p.place + (p.at as usize) * 16,
        index,
        start: block.start,
    };
    let filled = view_copies::append_views_and_copy_strings_inner(
        slots,
        pool,
        books,
        body,
        j,
        p.count,
        block.length,
    );
    open_blocks::put_length(books, k, filled);
}

// The same into the open block, whichever it is.
fn copy_into_open(
    s: BatchCoalescer,
    slots: &mut [u8],
    pool: &mut [u8],
    books: &mut [u8],
    records: &[u8],
    body: &[u8],
    rows: RowCount,
    r: ColumnRecord,
    p: Rows,
)
    requires { RoomInOpen (world s slots.old pool.old books.old) (batch rows.0 records.now body.now) r p }
    ensures { compacting (world s slots.old pool.old books.old) (batch rows.0 records.now body.now) p
        ≡ ok (world s slots.new pool.new books.new) }
{
    let column = layout::column_of(s, p.column);
    let block = column.block;
    match block {
        None => {}
        Some(k) => { copy_strings(s, slots, pool, books, records, body, rows, r, p, k) }
    }
}

// A block opened for at least min bytes, and the part copied into it.
fn open_and_copy(
    s: BatchCoalescer,
    slots: &mut [u8],
    pool: &mut [u8],
    books: &mut [u8],
    records: &[u8],
    body: &[u8],
    rows: RowCount,
    r: ColumnRecord,
    p: Rows,
    min: ByteSum,
) -> Step
    requires { (ViewPart (world s slots.old pool.old books.old) (batch rows.0 records.now body.now) r p)
        × (long_of (world s slots.old pool.old books.old) (batch rows.0 records.now body.now) p ≤ min.0) }
    ensures { Steps (opened_for (world s slots.old pool.old books.old) (batch rows.0 records.now body.now) min.0 p)
        result slots.new pool.new books.new }
{
    let next = open_blocks::next_buffer(s, books, p.column, min);
    if next.number == 0 {
        let t = next.state;
        copy_into_open(t, slots, pool, books, records, body, rows, r, p);
        Step {
            state: t,
            number: 0,
        }
    } else {
        next
    }
}

// The open block closed, then the same.
fn move_and_copy(
    s: BatchCoalescer,
    slots: &mut [u8],
    pool: &mut [u8],
    books: &mut [u8],
    records: &[u8],
    body: &[u8],
    rows: RowCount,
    r: ColumnRecord,
    p: Rows,
    min: ByteSum,
) -> Step
    requires { (ViewPart (world s slots.old pool.old books.old) (batch rows.0 records.now body.now) r p)
        × (long_of (world s slots.old pool.old books.old) (batch rows.0 records.now body.now) p ≤ min.0) }
    ensures { Steps (opened_for (closed (world s slots.old pool.old books.old) p.column) (batch rows.0 records.now body.now) min.0 p)
        result slots.new pool.new books.new }
{
    let t = open_blocks::finish_current(s, slots, books, p.column);
    open_and_copy(t, slots, pool, books, records, body, rows, r, p, min)
}

// The first k rows of a part, and those behind them.
fn first_rows(p: Rows, k: RowCount) -> Rows
    ensures { result ≡ first_rows p k.0 }
{
    Rows {
        column: p.column,
        place: p.place,
        at: p.at,
        from: p.from,
        count: k,
    }
}

fn rows_behind(p: Rows, k: RowCount) -> Rows
    requires { (k.0 ≤ p.count.0) × (p.at + p.count.0 ≤ 65536) × (p.from + p.count.0 ≤ 65536) }
    ensures { result ≡ rows_behind p k.0 }
{
    Rows {
        column: p.column,
        place: p.place,
        at: p.at + k.0,
        from: p.from + k.0,
        count: RowCount(p.count.0 - k.0),
    }
}

// The walk: what the open block takes, then another block for the remainder, even when that is empty.
fn walk_on(
    s: BatchCoalescer,
    slots: &mut [u8],
    pool: &mut [u8],
    books: &mut [u8],
    records: &[u8],
    body: &[u8],
    rows: RowCount,
    r: ColumnRecord,
    p: Rows,
    ideal: ByteSum,
    rest: ByteSum,
) -> Step
    requires { Walks (world s slots.old pool.old books.old) (batch rows.0 records.now body.now) r p ideal.0 rest.0 }
    ensures { Steps (walked_on (world s slots.old pool.old books.old) (batch rows.0 records.now body.now) ideal.0 rest.0 p)
        result slots.new pool.new books.new }
{
    let from = (r.values as usize) + (p.from as usize) * 16;
    let walked = byte_view::walk(body, from, p.count, rest);
    let first = first_rows(p, walked.rows);
    let behind = rows_behind(p, walked.rows);
    copy_into_open(s, slots, pool, books, records, body, rows, r, first);
    let left = ByteSum(ideal.0 - walked.bytes.0);
    move_and_copy(s, slots, pool, books, records, body, rows, r, behind, left)
}

// A part compacted: into a new block, into the open one, or into both.
fn append_views_and_copy_strings(
    s: BatchCoalescer,
    slots: &mut [u8],
    pool: &mut [u8],
    books: &mut [u8],
    records: &[u8],
    body: &[u8],
    rows: RowCount,
    r: ColumnRecord,
    p: Rows,
    ideal: ByteSum,
) -> Step
    requires { (ViewPart (world s slots.old pool.old books.old) (batch rows.0 records.now body.now) r p)
        × (ideal.0 ≡ Rattle.rules.specs.Batch.ideal (world s slots.old pool.old books.old) (batch rows.0 records.now body.now) p.column) }
    ensures { Steps (part_compacted (world s slots.old pool.old books.old) (batch rows.0 records.now body.now) (span p.column p.at p.from p.count.0))
        result slots.new pool.new books.new }
{
    let column = layout::column_of(s, p.column);
    let block = column.block;
    match block {
        None => { open_and_copy(s, slots, pool, books, records, body, rows, r, p, ideal) }
        Some(k) => {
            let rest = columns::rest_of(books, k);
            if ideal.0 <= rest.0 {
                copy_strings(s, slots, pool, books, records, body, rows, r, p, k);
                Step {
                    state: s,
                    number: 0,
                }
            } else {
                walk_on(
                    s, slots, pool, books, records, body, rows, r, p, ideal, rest,
                )
            }
        }
    }
}

// The list of a part's column behind k numbers, and the part's views with k added to their index.
fn attach_list(
    s: BatchCoalescer,
    slots: &mut [u8],
    books: &mut [u8],
    records: &[u8],
    body: &[u8],
    rows: RowCount,
    r: ColumnRecord,
    p: Rows,
    k: u32,
)
    requires { (AnyPart s slots.old books.old (batch rows.0 records.now body.now) r p) × (k + r.count ≤ s.lists)
        × (k ≡ list_length (world s [] [] books.old) s.place p.column) }
    ensures { RaisesPart s slots.old books.old (batch rows.0 records.now body.now) k p slots.new books.new }
{
    lists::append_list(s, slots, books, records, body, rows, r, p.column);
    let to = p.place + (p.at as usize) * 16;
    let from = (r.values as usize) + (p.from as usize) * 16;
    view_copies::append_views_and_update_buffer_index(slots, to, body, from, p.count, k);
}

// A part attached: the open block closed, the list behind it, and the views with their index raised. 10, the block counted.
fn attach(
    s: BatchCoalescer,
    slots: &mut [u8],
    books: &mut [u8],
    records: &[u8],
    body: &[u8],
    rows: RowCount,
    r: ColumnRecord,
    p: Rows,
) -> Step
    requires { AnyPart s slots.old books.old (batch rows.0 records.now body.now) r p }
    ensures { AttachesPart s slots.old books.old (batch rows.0 records.now body.now) p result slots.new books.new }
{
    let n = columns::list_closed(s, books, p.column);
    if (n as u64) + (r.count as u64) <= (s.lists as u64) {
        let t = open_blocks::finish_current(s, slots, books, p.column);
        attach_list(t, slots, books, records, body, rows, r, p, n);
        Step {
            state: t,
            number: 0,
        }
    } else {
        Step {
            state: s,
            number: 10,
        }
    }
}

// copy_rows: a part of a batch into column c of the slot being filled, the way that was decided.
pub fn copy_rows(
    s: BatchCoalescer,
    slots: &mut [u8],
    pool: &mut [u8],
    books: &mut [u8],
    records: &[u8],
    body: &[u8],
    rows: RowCount,
    r: ColumnRecord,
    source: Source,
    p: Rows,
) -> Step
    requires { (Part (world s slots.old pool.old books.old) (batch rows.0 records.now body.now) r p)
        × (Decided (world s slots.old pool.old books.old) (batch rows.0 records.now body.now) p.column source) }
    ensures { Steps (copied_by (world s slots.old pool.old books.old) (batch rows.0 records.now body.now) p source.way)
        result slots.new pool.new books.new }
{
    let width = layout::width_of(s, p.column);
    let begin = p.place + (s.rows.0 as usize) * width;
    let size = layout::bitmap_bytes(s);
    let way = source.way;
    match way {
        Way::Copied => {
            primitive::copy_rows(slots, begin, size, body, r, width, p);
            Step {
                state: s,
                number: 0,
            }
        }
        Way::Attached => {
            primitive::copy_validity(slots, begin, size, body, r, p);
            attach(s, slots, books, records, body, rows, r, p)
        }
        Way::Compacted => {
            let ideal = source.ideal;
            primitive::copy_validity(slots, begin, size, body, r, p);
            append_views_and_copy_strings(s, slots, pool, books, records, body, rows, r, p, ideal)
        }
    }
}
