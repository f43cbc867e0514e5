// The open block of a column of views: closed, when it joins its list, and opened.
// From arrow-select 60.0.0, src/coalesce/byte_view.rs: `InProgressByteViewArray::finish_current`, and `BufferSource::next_buffer`.
#![tactic(auto)]

ghost use Rattle.std.specs.Prelude.{◌≡◌, true, ◌+◌, ◌*◌, ◌≤◌, ◌<◌, length};
ghost use Rattle.sound.specs.Change.{with_length};
ghost use Rattle.state.specs.Layout.{is_views};
ghost use Rattle.open_blocks.specs.Open.{Booked, FillingViews, ClosesBlock, OpensNext, OpensBlock};

use counts::{BufferNumber, ByteCount, ByteSum};
use rules::Step;
use state::BatchCoalescer;

// finish_current: the open block joins its list, if there is one.
pub fn finish_current(
    s: BatchCoalescer,
    slots: &mut [u8],
    books: &mut [u8],
    c: u32,
) -> BatchCoalescer
    requires { FillingViews s slots.old books.old c }
    ensures { ClosesBlock s slots.old books.old c result slots.new books.new }
{
    let column = layout::column_of(s, c);
    let block = column.block;
    match block {
        None => s,
        Some(k) => {
            lists::list_number(s, slots, books, c, k);
            columns::with_column(s, c, column.source, None)
        }
    }
}

// A block for at least min bytes, where its list has a place. 11 and 12.
fn open_next(s: BatchCoalescer, books: &mut [u8], c: u32, min: ByteSum) -> Step
    requires { (Booked s books.old) × (c < s.columns) × (is_views s c ≡ true) }
    ensures { OpensNext s books.old c min result books.new }
{
    let column = layout::column_of(s, c);
    let source = column.source;
    let next = source.next_size(min);
    let chosen = making_room::open_block(books, s.numbers, s.pool, next.size);
    match chosen {
        Err(number) => Step { state: s, number },
        Ok(r) => {
            let number = r.number;
            let kept = next.source;
            let t = columns::with_column(s, c, kept, Some(number));
            Step {
                state: t,
                number: 0,
            }
        }
    }
}

// next_buffer: a block for at least min bytes. 10, then 11 and 12.
pub fn next_buffer(s: BatchCoalescer, books: &mut [u8], c: u32, min: ByteSum) -> Step
    requires { (Booked s books.old) × (c < s.columns) × (is_views s c ≡ true) }
    ensures { OpensBlock s books.old c min.0 result books.new }
{
    let n = slot_counts::list_length(s, books, s.place, c);
    if n < s.lists {
        open_next(s, books, c, min)
    } else {
        Step {
            state: s,
            number: 10,
        }
    }
}

// The length of a buffer set.
pub fn put_length(books: &mut [u8], i: BufferNumber, n: ByteCount)
    requires { 24 + 20 * i.0 ≤ length books.old }
    ensures { books.new ≡ with_length books.old i.0 n.0 }
{
    words::put32(books, 12 + 20 * (i.0 as usize), n.0);
}
