// What is known and decided of one column: the way that a pushed column goes, its list, its block; the state with another block.
// From arrow-select 60.0.0, src/coalesce/byte_view.rs: `InProgressByteViewArray::set_source`.
#![tactic(auto)]

ghost use Rattle.std.specs.Prelude.{◌≡◌, [], ◌+◌, ◌*◌, ◌-◌, ◌≤◌, ◌<◌, ◌^◌, length};
ghost use Rattle.books.specs.Entry.{entry_of};
ghost use Rattle.state.specs.World.{world};
ghost use Rattle.state.specs.Layout.{books_length, list_length};
ghost use Rattle.layout.specs.Few.{Few};
ghost use Rattle.rules.specs.Batch.{batch};
ghost use Rattle.rules.specs.Steps.{with_column};
ghost use Rattle.columns.specs.Column.{source_for, closed_length, Sourceable};

use blocks::BufferSource;
use byte_view::Source;
use counts::{BufferNumber, ByteSum, RowCount};
use rules::Way;
use state::{BatchCoalescer, Column};

// The state with another block size and another block in column c.
pub fn with_column(
    s: BatchCoalescer,
    c: u32,
    source: BufferSource,
    block: Option<BufferNumber>,
) -> BatchCoalescer
    requires { c < 16 }
    ensures { result ≡ with_column s c source block }
{
    let at = c as usize;
    let kind = layout::column_of(s, c).kind;
    let mut t = s;
    t.column[at] = Column {
        kind,
        source,
        block,
    };
    t
}

// set_source: what is decided once of a pushed column.
pub fn set_source(
    s: BatchCoalescer,
    books: &[u8],
    records: &[u8],
    body: &[u8],
    rows: RowCount,
    c: u32,
) -> Source
    requires { (Sourceable s books.now (batch rows.0 records.now body.now) c) × (c < 16) × (rows.0 ≤ 65536) }
    ensures { result ≡ source_for (world s [] [] books.now) (batch rows.0 records.now body.now) c }
{
    if layout::is_views(s, c) {
        let r = records::record_at(records, c);
        let ideal = byte_view::ideal_of(body, r.values as usize, rows);
        let actual = byte_view::actual_of(books, body, r.list as usize, r.count);
        let way = byte_view::way_of(ideal, actual);
        Source { ideal, way }
    } else {
        Source {
            ideal: ByteSum(0),
            way: Way::Copied,
        }
    }
}

// How many numbers that list will have when the open block has joined it.
pub fn list_closed(s: BatchCoalescer, books: &[u8], c: u32) -> u32
    requires { (Few s) × (s.place ≤ s.queue) × (c < s.columns) × (length books.now ≡ books_length s)
        × (list_length (world s [] [] books.now) s.place c ≤ s.lists) }
    ensures { (result ≡ closed_length (world s [] [] books.now) c) × (result ≤ 1025) }
{
    let n = slot_counts::list_length(s, books, s.place, c);
    let block = layout::column_of(s, c).block;
    match block {
        None => n,
        Some(_) => n + 1,
    }
}

// The rest of a block: capacity less filled length.
pub fn rest_of(books: &[u8], k: BufferNumber) -> ByteSum
    requires { 24 + 20 * k.0 ≤ length books.now }
    ensures { result.0 ≡ (entry_of books.now k.0).capacity.0 - (entry_of books.now k.0).length.0 }
{
    let e = books::entry_at(books, k);
    ByteSum(e.capacity.0.saturating_sub(e.length.0) as u64)
}
