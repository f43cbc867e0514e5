// Where the columns of the front batch stand in the lent slots, for a reader that takes them whole. Added by the port: the tests are made once for a batch,
// and not once for a row.
#![tactic(auto)]

ghost use Rattle.std.specs.Prelude.{◌≡◌, [], ◌+◌, ◌*◌, ◌≤◌, ◌<◌, length};
ghost use Rattle.state.specs.World.{world};
ghost use Rattle.state.specs.Layout.{queued_slot};
ghost use Rattle.fronts.specs.Front.{with_long, places_put, column_put, columns_put, front_call};
ghost use Rattle.fronts.specs.Placed.{column_of_kind};
ghost use Rattle.ranges.specs.Passed.{PassedTests};
ghost use Rattle.fronts.specs.Fronts.{FrontsCall};

use counts::RowCount;
use state::BatchCoalescer;

// The answer: 0 or the number of the refusal, and the rows of the front batch.
#[derive(Clone, Copy)]
pub struct Front {
    pub number: u32,
    pub rows: RowCount,
}

// A place in 8 bytes, low word first.
fn put_long(out: &mut [u8], at: usize, v: usize)
    requires { at + 8 ≤ length out.old }
    ensures { out.new ≡ with_long out.old at v }
{
    out[at..at + 8].copy_from_slice(&(v as u64).to_le_bytes());
}

// Three places.
fn put_places(out: &mut [u8], at: usize, values: usize, bitmap: usize, list: usize)
    requires { at + 24 ≤ length out.old }
    ensures { out.new ≡ places_put out.old at values bitmap list }
{
    put_long(out, at, values);
    put_long(out, at + 8, bitmap);
    put_long(out, at + 16, list);
}

// Column c of the front batch in 32 bytes: of its kind, the rows of a slot, where its values begin and how many numbers its list has.
fn put_column(kind: u32, rows: RowCount, place: usize, count: u32, c: u32, out: &mut [u8])
    requires { (rows.0 ≤ 65536) × (place ≤ 36000000000) × (c < 16) × (length out.old ≡ 512) }
    ensures { out.new ≡ column_put out.old (32 * c) (column_of_kind kind rows.0 place count) }
{
    let width = layout::width_in(kind);
    let bitmap = place + (rows.0 as usize) * width;
    let list = bitmap + ((rows.0 as usize) + 7) / 8;
    let at = 32 * (c as usize);
    put_places(out, at, place, bitmap, list);
    words::put32(out, at + 24, count);
    words::put32(out, at + 28, width as u32);
}

// Every column: `place` runs along the slot, and no column sees the state.
fn put_columns(s: BatchCoalescer, slots: &[u8], books: &[u8], slot: u32, out: &mut [u8])
    requires { (PassedTests s slots.now books.now) × (slot ≡ queued_slot s 0) × (slot ≤ s.queue) × (length out.old ≡ 512) }
    ensures { out.new ≡ columns_put (world s slots.now [] books.now) out.old s.columns }
{
    let mut place = layout::values_place(s, slot, 0);
    for c in 0..s.columns {
        let column = s.column[c as usize];
        let count = slot_counts::list_length(s, books, slot, c);
        put_column(column.kind, s.rows, place, count, c, out);
        place += layout::column_size(column.kind, s.rows, s.lists);
    }
}

// The front batch: its rows, and in `out`, of 512 bytes, where its columns stand. 1, 14, and 13 where nothing is queued.
pub fn front_batch(
    s: BatchCoalescer,
    slots: &[u8],
    pool: &[u8],
    books: &[u8],
    out: &mut [u8],
) -> Front
    ensures { FrontsCall (front_call (world s slots.now pool.now books.now) out.old) out.new result }
{
    let number = ranges::tested(s, slots, pool, books);
    if out.len() != 512 {
        return Front {
            number: 1,
            rows: RowCount(0),
        };
    }
    if number != 0 {
        return Front {
            number,
            rows: RowCount(0),
        };
    }
    if s.queued == 0 {
        return Front {
            number: 13,
            rows: RowCount(0),
        };
    }
    let slot = layout::front_slot(s);
    put_columns(s, slots, books, slot, out);
    let rows = slot_counts::rows_in(s, books, slot);
    Front { number: 0, rows }
}
