// Set-up: the state that is asked for, over memory of its lengths.
// From arrow-select 60.0.0, src/coalesce.rs: `BatchCoalescer::new`.
#![tactic(auto)]

ghost use Rattle.std.specs.Prelude.{◌≡◌, ◌<◌, length, replicate};
ghost use Rattle.rules.specs.Calls.{of_kind, columns_for, new_state, no_state, set_up_call};
ghost use Rattle.set_up.specs.SetUp.{padded, kind_at, wanted_of, SetsUp};

use blocks::BufferSource;
use counts::{ByteCount, RowCount};
use rules::Step;
use state::{BatchCoalescer, Column};

// What set-up is asked for. Kinds past the last column are not read.
#[derive(Clone, Copy)]
pub struct Wanted {
    pub target: RowCount,
    pub rows: RowCount,
    pub queue: u32,
    pub columns: u32,
    pub kinds: [u32; 16],
    pub lists: u32,
    pub numbers: u32,
    pub pool: ByteCount,
}

// A column of a kind, as set-up makes it.
fn fresh_column(kind: u32) -> Column
    ensures { result ≡ of_kind kind }
{
    Column {
        kind,
        source: BufferSource::new(),
        block: None,
    }
}

fn no_columns() -> [Column; 16]
    ensures { result ≡ replicate 16 (of_kind 0) }
{
    let none = fresh_column(0);
    [none; 16]
}

// The kind of column c, and 0 past the last.
fn kind_at(columns: u32, kinds: [u32; 16], c: usize) -> u32
    requires { c < 16 }
    ensures { result ≡ kind_at columns kinds c }
{
    if c < (columns as usize) { kinds[c] } else { 0 }
}

// The columns of the kinds that are wanted; kind 0 past the last.
fn fresh_columns(columns: u32, kinds: [u32; 16]) -> [Column; 16]
    ensures { result ≡ columns_for (padded columns kinds) 16 }
{
    std::array::from_fn(|c| fresh_column(kind_at(columns, kinds, c)))
}

// The state that set-up makes.
fn fresh_state(w: Wanted) -> BatchCoalescer
    ensures { result ≡ new_state (wanted_of w) }
{
    let kinds = w.kinds;
    let column = fresh_columns(w.columns, kinds);
    BatchCoalescer {
        target: w.target,
        rows: w.rows,
        queue: w.queue,
        columns: w.columns,
        lists: w.lists,
        numbers: w.numbers,
        pool: w.pool,
        limit: None,
        place: 0,
        queued: 0,
        buffered: RowCount(0),
        column,
    }
}

// The state that a refused set-up hands back, which every call refuses.
fn no_state() -> BatchCoalescer
    ensures { result ≡ no_state }
{
    let column = no_columns();
    BatchCoalescer {
        target: RowCount(0),
        rows: RowCount(0),
        queue: 0,
        columns: 0,
        lists: 0,
        numbers: 0,
        pool: ByteCount(0),
        limit: None,
        place: 0,
        queued: 0,
        buffered: RowCount(0),
        column,
    }
}

// new: set-up. Empties the books; changes no slot and no pool byte. 1.
pub fn new_coalescer(w: Wanted, slots: &[u8], pool: &[u8], books: &mut [u8]) -> Step
    ensures { SetsUp (set_up_call (wanted_of w) slots.now pool.now books.old) books.new result }
{
    let s = fresh_state(w);
    if ranges::fits_set_up(s, slots.len(), pool.len(), books.len()) {
        books.fill(0);
        Step {
            state: s,
            number: 0,
        }
    } else {
        Step {
            state: no_state(),
            number: 1,
        }
    }
}
