// The counts of a slot, where a state has them in the books: its rows, and the length of each column's list. And the next slot to fill.
#![tactic(auto)]

ghost use Rattle.std.specs.Prelude.{◌≡◌, [], ◌+◌, ◌≤◌, ◌<◌, length};
ghost use Rattle.tallies.specs.Tally.{tally_of, with_tally};
ghost use Rattle.state.specs.World.{world};
ghost use Rattle.state.specs.Layout.{books_length, tally, list_length, rows_in, next_slot};
ghost use Rattle.layout.specs.Few.{Few};
ghost use Rattle.rules.specs.Steps.{with_counts};

use counts::RowCount;
use state::BatchCoalescer;
use tallies::Tally;

// Count `word` of a slot: 0 is its rows, c + 1 the length of the list of column c.
fn count_at(s: BatchCoalescer, books: &[u8], slot: u32, word: u32) -> u32
    requires { (Few s) × (slot ≤ s.queue) × (word ≤ s.columns) × (length books.now ≡ books_length s) }
    ensures { result ≡ tally_of books.now (tally s slot word) }
{
    let t = Tally {
        numbers: s.numbers,
        columns: s.columns,
        slot,
        word,
    };
    tallies::tally_at(books, t)
}

// The length of the list of column c of a slot.
pub fn list_length(s: BatchCoalescer, books: &[u8], slot: u32, c: u32) -> u32
    requires { (Few s) × (slot ≤ s.queue) × (c < s.columns) × (length books.now ≡ books_length s) }
    ensures { result ≡ list_length (world s [] [] books.now) slot c }
{
    count_at(s, books, slot, c + 1)
}

// The rows of a slot.
pub fn rows_in(s: BatchCoalescer, books: &[u8], slot: u32) -> RowCount
    requires { (Few s) × (slot ≤ s.queue) × (length books.now ≡ books_length s) }
    ensures { result.0 ≡ rows_in (world s [] [] books.now) slot }
{
    RowCount(count_at(s, books, slot, 0))
}

// A count of a slot set.
pub fn put_count(s: BatchCoalescer, books: &mut [u8], slot: u32, word: u32, n: u32)
    requires { (Few s) × (slot ≤ s.queue) × (word ≤ s.columns) × (length books.old ≡ books_length s) }
    ensures { books.new ≡ with_tally books.old (tally s slot word) n }
{
    let t = Tally {
        numbers: s.numbers,
        columns: s.columns,
        slot,
        word,
    };
    tallies::put_tally(books, t, n);
}

// The length of the list of column c of the slot being filled set.
pub fn put_list_length(s: BatchCoalescer, books: &mut [u8], c: u32, n: u32)
    requires { (Few s) × (s.place ≤ s.queue) × (c < s.columns) × (length books.old ≡ books_length s) }
    ensures { books.new ≡ with_tally books.old (tally s s.place (c + 1)) n }
{
    put_count(s, books, s.place, c + 1, n);
}

// The state with the next slot to fill.
pub fn next_to_fill(s: BatchCoalescer) -> BatchCoalescer
    requires { (Few s) × (s.place ≤ s.queue) × (s.queued < s.queue) }
    ensures { result ≡ with_counts s (next_slot s s.place) (s.queued + 1) 0 }
{
    BatchCoalescer {
        place: layout::next_slot(s, s.place),
        queued: s.queued + 1,
        buffered: RowCount(0),
        ..s
    }
}
