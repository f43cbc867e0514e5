// The list of a column of the slot being filled: one number, or the whole list of a record, behind what is listed.
// From arrow-select 60.0.0, src/coalesce/byte_view.rs: `InProgressByteViewArray::completed`, pushed to and extended.
#![tactic(auto)]

ghost use Rattle.std.specs.Prelude.{◌≡◌, true, [], ◌+◌, ◌*◌, ◌≤◌, ◌<◌, length};
ghost use Rattle.words.specs.Word.{with_word32};
ghost use Rattle.tallies.specs.Tally.{with_tally};
ghost use Rattle.state.specs.World.{world};
ghost use Rattle.state.specs.Layout.{is_views, list_place, list_length, slots_length, books_length, tally};
ghost use Rattle.layout.specs.Few.{Few};
ghost use Rattle.rules.specs.Batch.{batch, record_of};
ghost use Rattle.lists.specs.List.{Listable, Attaches};

use counts::{BufferNumber, RowCount};
use rules::ColumnRecord;
use state::BatchCoalescer;

// A number at the end of the list of column c of the slot being filled.
pub fn list_number(
    s: BatchCoalescer,
    slots: &mut [u8],
    books: &mut [u8],
    c: u32,
    number: BufferNumber,
)
    requires { (Few s) × (s.place ≤ s.queue) × (c < s.columns) × (is_views s c ≡ true) × (length slots.old ≡ slots_length s) × (length books.old ≡ books_length s)
        × (list_length (world s [] [] books.old) s.place c < s.lists) }
    ensures { (slots.new ≡ with_word32 slots.old (list_place s s.place c + 4 * list_length (world s [] [] books.old) s.place c) number.0)
        × (books.new ≡ with_tally books.old (tally s s.place (c + 1)) (list_length (world s [] [] books.old) s.place c + 1)) }
{
    let n = slot_counts::list_length(s, books, s.place, c);
    let place = layout::list_place(s, s.place, c);
    words::put32(slots, place + 4 * (n as usize), number.0);
    slot_counts::put_list_length(s, books, c, n + 1);
}

// The whole list of a record behind what is listed in column c of the slot being filled.
pub fn append_list(
    s: BatchCoalescer,
    slots: &mut [u8],
    books: &mut [u8],
    records: &[u8],
    body: &[u8],
    rows: RowCount,
    r: ColumnRecord,
    c: u32,
)
    requires { (Listable s slots.old books.old (batch rows.0 records.now body.now) c) × (r ≡ record_of (batch rows.0 records.now body.now) c) }
    ensures { Attaches s slots.old books.old (batch rows.0 records.now body.now) c slots.new books.new }
{
    let n = slot_counts::list_length(s, books, s.place, c);
    let place = layout::list_place(s, s.place, c);
    let from = r.list as usize;
    let size = 4 * (r.count as usize);
    let end = from + size;
    words::put_part(slots, place + 4 * (n as usize), body, from, size);
    list_changes::list_all(books, s.numbers, &body[from..end], r.count as usize);
    slot_counts::put_list_length(s, books, c, n + r.count);
}
