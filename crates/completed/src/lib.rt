// The front batch dropped, after it was read: its lists unlisted, its counts zero.
// From arrow-select 60.0.0, src/coalesce.rs: `next_completed_batch`.
#![tactic(auto)]

ghost use Rattle.std.specs.Prelude.{◌≡◌, ◌+◌, ◌≤◌, ◌<◌, length};
ghost use Rattle.state.specs.World.{world};
ghost use Rattle.state.specs.Layout.{books_length};
ghost use Rattle.layout.specs.Few.{Few};
ghost use Rattle.rules.specs.Batch.{batch};
ghost use Rattle.rules.specs.Ranges.{tested};
ghost use Rattle.rules.specs.Calls.{drop_call};
ghost use Rattle.ranges.specs.Passed.{PassedTests};
ghost use Rattle.completed.specs.Drop.{list_off, lists_off, counts_off, Droppable, DropsFront, Drops};

use counts::RowCount;
use state::BatchCoalescer;

// What dropping answers: the state, the number of the refusal or 0, and the rows of the batch.
#[derive(Clone, Copy)]
pub struct Dropped {
    pub state: BatchCoalescer,
    pub number: u32,
    pub rows: RowCount,
}

// One listing less for each number of the list of column c of a slot.
fn drop_list(s: BatchCoalescer, slots: &[u8], books: &mut [u8], slot: u32, c: u32)
    requires { (Droppable s slots.now books.old slot) × (c < s.columns) }
    ensures { books.new ≡ list_off s slots.now books.old slot c }
{
    let n = slot_counts::list_length(s, books, slot, c);
    if n == 0 {
        return;
    }
    let from = layout::list_place(s, slot, c);
    let end = from + 4 * (n as usize);
    list_changes::unlist_all(books, s.numbers, &slots[from..end], n as usize);
}

fn drop_lists(s: BatchCoalescer, slots: &[u8], books: &mut [u8], slot: u32)
    requires { Droppable s slots.now books.old slot }
    ensures { books.new ≡ lists_off s slots.now books.old slot s.columns }
{
    for c in 0..s.columns {
        drop_list(s, slots, books, slot, c);
    }
}

// The counts of a slot zero.
fn uncount(s: BatchCoalescer, books: &mut [u8], slot: u32)
    requires { (Few s) × (slot ≤ s.queue) × (length books.old ≡ books_length s) }
    ensures { books.new ≡ counts_off s books.old slot (1 + s.columns) }
{
    for k in 0..1 + s.columns {
        slot_counts::put_count(s, books, slot, k, 0);
    }
}

// The front batch dropped, where there is one.
fn drop_front(s: BatchCoalescer, slots: &[u8], books: &mut [u8]) -> Dropped
    requires { (PassedTests s slots.now books.old) × (1 ≤ s.queued) }
    ensures { DropsFront s slots.now books.old books.new result }
{
    let slot = layout::front_slot(s);
    let rows = slot_counts::rows_in(s, books, slot);
    drop_lists(s, slots, books, slot);
    uncount(s, books, slot);
    let mut t = s;
    t.queued = s.queued - 1;
    Dropped {
        state: t,
        number: 0,
        rows,
    }
}

// next_completed_batch: the front batch dropped, after it was read. Answers its rows, and 0 on an empty queue.
pub fn next_completed_batch(
    s: BatchCoalescer,
    slots: &[u8],
    pool: &[u8],
    books: &mut [u8],
) -> Dropped
    ensures { Drops (drop_call (world s slots.now pool.now books.old)) books.new result }
{
    let number = ranges::tested(s, slots, pool, books);
    if number != 0 {
        Dropped {
            state: s,
            number,
            rows: RowCount(0),
        }
    } else if 0 < s.queued {
        drop_front(s, slots, books)
    } else {
        Dropped {
            state: s,
            number: 0,
            rows: RowCount(0),
        }
    }
}
