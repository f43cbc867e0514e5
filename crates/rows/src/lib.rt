// A row of the front batch read: null, in its row, or in a buffer. Added by the port.
#![tactic(auto)]

ghost use Rattle.std.specs.Prelude.{true, ◌≡◌, [], ◌+◌, ◌≤◌, ◌<◌, length};
ghost use Rattle.views.specs.View.{view_of};
ghost use Rattle.state.specs.World.{world};
ghost use Rattle.state.specs.Layout.{is_views};
ghost use Rattle.rules.specs.Calls.{view_answer, value_answer, read_row};
ghost use Rattle.ranges.specs.Passed.{PassedTests};
ghost use Rattle.rows.specs.Row.{row_answer, front_row};

use counts::{BufferNumber, ByteCount};
use state::{BatchCoalescer, Place, RowAnswer};

// Where the bytes of a view of a slot are. 13 for a long view outside its list, which no history leaves.
fn view_answer(
    s: BatchCoalescer,
    slots: &[u8],
    books: &[u8],
    slot: u32,
    c: u32,
    at: usize,
) -> RowAnswer
    requires { (PassedTests s slots.now books.now) × (slot ≤ s.queue) × (c < s.columns) × (is_views s c ≡ true) × (at + 16 ≤ length slots.now) }
    ensures { result ≡ view_answer (world s slots.now [] books.now) slot c at (view_of slots.now at) }
{
    let v = views::view_at(slots, at);
    if v.length <= views::MAX_INLINE_VIEW_LEN {
        return RowAnswer::Value(Place::InRow((at as u64) + 4, ByteCount(v.length)));
    }
    if v.index < slot_counts::list_length(s, books, slot, c) {
        let k = words::get32(
            slots,
            layout::list_place(s, slot, c) + 4 * (v.index as usize),
        );
        RowAnswer::Value(Place::InBuffer(BufferNumber(k), v.offset, ByteCount(v.length)))
    } else {
        RowAnswer::Refused(13)
    }
}

// A value of a slot: where it is.
fn value_answer(
    s: BatchCoalescer,
    slots: &[u8],
    books: &[u8],
    slot: u32,
    c: u32,
    i: u32,
) -> RowAnswer
    requires { (PassedTests s slots.now books.now) × (slot ≤ s.queue) × (c < s.columns) × (i < s.rows.0) }
    ensures { result ≡ value_answer (world s slots.now [] books.now) slot c i }
{
    let at = layout::cell_place(s, slot, c, i);
    if layout::is_views(s, c) {
        view_answer(s, slots, books, slot, c, at)
    } else {
        let width = layout::width_of(s, c);
        RowAnswer::Value(Place::InRow(at as u64, ByteCount(width as u32)))
    }
}

// A row of a slot: null, or where its value is.
fn row_answer(s: BatchCoalescer, slots: &[u8], books: &[u8], slot: u32, c: u32, i: u32) -> RowAnswer
    requires { (PassedTests s slots.now books.now) × (slot ≤ s.queue) × (c < s.columns) × (i < s.rows.0) }
    ensures { result ≡ row_answer (world s slots.now [] books.now) slot c i }
{
    let bit = bits::bit_at(slots, layout::bitmap_place(s, slot, c), 0, i as usize);
    if bit == 0 {
        RowAnswer::Null
    } else {
        value_answer(s, slots, books, slot, c, i)
    }
}

// Row i of column c of the front batch, in a state that passed its tests. 13 where there is none.
fn front_row(s: BatchCoalescer, slots: &[u8], books: &[u8], c: u32, i: u32) -> RowAnswer
    requires { PassedTests s slots.now books.now }
    ensures { result ≡ front_row (world s slots.now [] books.now) c i }
{
    if s.queued == 0 {
        return RowAnswer::Refused(13);
    }
    if s.columns <= c {
        return RowAnswer::Refused(13);
    }
    let slot = layout::front_slot(s);
    if i < slot_counts::rows_in(s, books, slot).0 {
        row_answer(s, slots, books, slot, c, i)
    } else {
        RowAnswer::Refused(13)
    }
}

// Row i of column c of the front batch. 13 where there is none.
pub fn read_row(
    s: BatchCoalescer,
    slots: &[u8],
    pool: &[u8],
    books: &[u8],
    c: u32,
    i: u32,
) -> RowAnswer
    ensures { result ≡ read_row (world s slots.now pool.now books.now) c i }
{
    let number = ranges::tested(s, slots, pool, books);
    if number == 0 {
        front_row(s, slots, books, c, i)
    } else {
        RowAnswer::Refused(number)
    }
}
