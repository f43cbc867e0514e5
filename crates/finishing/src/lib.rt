// Finishing: each open block joins its list, and the slot being filled is queued.
// From arrow-select 60.0.0, src/coalesce.rs: `finish_buffered_batch`.
#![tactic(auto)]

ghost use Rattle.std.specs.Prelude.{◌≡◌, ◌+◌, ◌≤◌, ◌<◌, length};
ghost use Rattle.tallies.specs.Tally.{with_tally};
ghost use Rattle.state.specs.Layout.{books_length, tally, next_slot};
ghost use Rattle.layout.specs.Few.{Few};
ghost use Rattle.rules.specs.Steps.{with_counts};
ghost use Rattle.rules.specs.Push.{finished, if_full};
ghost use Rattle.finishing.specs.Finish.{Closable, ClosesAll, Finishes};

use counts::RowCount;
use rules::Step;
use state::BatchCoalescer;

// The open block of each column of views joins its list.
fn close_all(s: BatchCoalescer, slots: &mut [u8], books: &mut [u8]) -> BatchCoalescer
    requires { Closable s slots.old books.old }
    ensures { ClosesAll s slots.old books.old s.columns result slots.new books.new }
{
    let mut t = s;
    for c in 0..s.columns {
        let column = s.column[c as usize];
        if !kinds::is_view(column.kind) {
            continue;
        }
        t = open_blocks::finish_current(t, slots, books, c);
    }
    t
}

// The slot being filled queued with so many rows.
pub fn queue_slot(s: BatchCoalescer, books: &mut [u8], rows: RowCount) -> BatchCoalescer
    requires { (Few s) × (s.place ≤ s.queue) × (s.queued < s.queue) × (length books.old ≡ books_length s) }
    ensures { (result ≡ with_counts s (next_slot s s.place) (s.queued + 1) 0)
        × (books.new ≡ with_tally books.old (tally s s.place 0) rows.0) }
{
    slot_counts::put_count(s, books, s.place, 0, rows.0);
    slot_counts::next_to_fill(s)
}

// finish_buffered_batch: nothing with 0 buffered; else each open block joins its list and the slot is queued. 9, and nothing changes.
pub fn finish(s: BatchCoalescer, slots: &mut [u8], books: &mut [u8]) -> Step
    requires { Closable s slots.old books.old }
    ensures { Finishes finished s slots.old books.old result slots.new books.new }
{
    if s.buffered.0 == 0 {
        Step {
            state: s,
            number: 0,
        }
    } else if s.queued < s.queue {
        let t = close_all(s, slots, books);
        let u = queue_slot(t, books, s.buffered);
        Step {
            state: u,
            number: 0,
        }
    } else {
        Step {
            state: s,
            number: 9,
        }
    }
}

// The same where the slot is full.
pub fn finish_full(s: BatchCoalescer, slots: &mut [u8], books: &mut [u8]) -> Step
    requires { Closable s slots.old books.old }
    ensures { Finishes if_full s slots.old books.old result slots.new books.new }
{
    if s.buffered.0 == s.target.0 {
        finish(s, slots, books)
    } else {
        Step {
            state: s,
            number: 0,
        }
    }
}
