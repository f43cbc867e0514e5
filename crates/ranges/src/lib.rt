// The tests that every call after set-up begins with: 1, the bounds and lengths of set-up; 14, the ranges of the state.
#![tactic(auto)]

ghost use Rattle.std.specs.Prelude.{◌≡◌, not, [], ◌+◌, ◌*◌, ◌≤◌, ◌<◌, length};
ghost use Rattle.search.specs.Every.{every};
ghost use Rattle.books.specs.Entry.{is_free_at};
ghost use Rattle.state.specs.World.{world, column_of};
ghost use Rattle.state.specs.Layout.{slots_length, books_length};
ghost use Rattle.layout.specs.Few.{Few};
ghost use Rattle.rules.specs.Ranges.{in_bounds, block_in_range, column_in_range, list_in_range, slot_in_range, state_in_range, tested};
ghost use Rattle.ranges.specs.Tested.{kinds_known, fits_lengths, opens_in, not_open, below, Sized};

use counts::{BufferNumber, ByteSum};
use state::{BatchCoalescer, Column};

// Whether every column is of a kind in the table.
fn kinds_known(s: BatchCoalescer) -> bool
    requires { s.columns ≤ 16 }
    ensures { result ≡ kinds_known s }
{
    for c in 0..s.columns {
        let width = kinds::width_of(s.column[c as usize].kind);
        let Some(_) = width else {
            return false;
        };
    }
    true
}

// Whether x lies within two bounds.
fn between(low: u32, x: u32, high: u32) -> bool
    ensures { result ≡ Rattle.rules.specs.Ranges.between low x high }
{
    low <= x && x <= high
}

// Whether what set-up fixed is within 01's bounds.
pub fn in_bounds(s: BatchCoalescer) -> bool
    ensures { result ≡ in_bounds s }
{
    // Kept: & between the tests: && gives the proof a case of its own for each of them, and reads no plainer.
    s.columns <= 16
        && (between(1, s.target.0, 65536)
            & between(s.target.0, s.rows.0, 65536)
            & between(1, s.queue, 1024)
            & kinds_known(s)
            & between(1, s.lists, 1024)
            & between(1, s.numbers, 65536))
}

// 1: whether the set-up is within its bounds and the lent memories have its lengths.
pub fn fits_set_up(s: BatchCoalescer, slots: usize, pool: usize, books: usize) -> bool
    ensures { result ≡ fits_lengths s slots pool books }
{
    // Kept: & between the tests: && gives the proof a case of its own for each of them, and reads no plainer.
    in_bounds(s)
        && ((slots == layout::slots_length(s))
            & (pool == s.pool.0 as usize)
            & (books == layout::books_length(s)))
}

// Whether number k is a buffer in use.
fn in_use(books: &[u8], k: BufferNumber) -> bool
    requires { 24 + 20 * k.0 ≤ length books.now }
    ensures { result ≡ not (is_free_at books.now k.0) }
{
    k.0 < words::get32(books, 0) && !books::is_free(books::entry_at(books, k))
}

// Whether a column of views has block k open.
fn has_open(column: Column, k: BufferNumber) -> bool
    ensures { result ≡ opens_in column k.0 }
{
    let block = column.block;
    match block {
        None => false,
        Some(j) => { j.0 == k.0 && kinds::is_view(column.kind) }
    }
}

// Whether no column before c has block k open.
fn none_before(s: BatchCoalescer, c: u32, k: BufferNumber) -> bool
    requires { c ≤ 16 }
    ensures { result ≡ every (not_open s k.0) c }
{
    for d in 0..c {
        if has_open(s.column[d as usize], k) {
            return false;
        }
    }
    true
}

// 14, an open block of column c: its number is below N and in use, its list has a place for it, and no column before has it open.
fn block_in_range(
    s: BatchCoalescer,
    books: &[u8],
    list: u32,
    c: u32,
    block: Option<BufferNumber>,
) -> bool
    requires { (c ≤ 16) × (length books.now ≡ books_length s) }
    ensures { result ≡ block_in_range s books.now list c block }
{
    match block {
        None => true,
        Some(k) => { k.0 < s.numbers && in_use(books, k) && list < s.lists && none_before(s, c, k) }
    }
}

// 14, column c: its kept block size and its open block.
fn column_in_range(s: BatchCoalescer, books: &[u8], c: u32, column: Column) -> bool
    requires { (Few s) × (s.place ≤ s.queue) × (c < s.columns) × (length books.now ≡ books_length s) × (column ≡ column_of s c) }
    ensures { result ≡ column_in_range (world s [] [] books.now) c }
{
    if !kinds::is_view(column.kind) {
        return true;
    }
    let list = slot_counts::list_length(s, books, s.place, c);
    between(4096, column.source.current.0, 1048576)
        && block_in_range(s, books, list, c, column.block)
}

// 14, every column.
fn columns_in_range(s: BatchCoalescer, books: &[u8]) -> bool
    requires { (Few s) × (s.place ≤ s.queue) × (length books.now ≡ books_length s) }
    ensures { result ≡ every (column_in_range (world s [] [] books.now)) s.columns }
{
    for c in 0..s.columns {
        if !column_in_range(s, books, c, s.column[c as usize]) {
            return false;
        }
    }
    true
}

// Whether the first `count` words from `at` on are below n.
fn words_below(s: &[u8], at: usize, count: u32, n: u32) -> bool
    requires { at + 4 * count ≤ length s.now }
    ensures { result ≡ below s.now at count n }
{
    for i in 0..count {
        if n <= words::get32(s, at + 4 * (i as usize)) {
            return false;
        }
    }
    true
}

// 14, a list: within B, and each number below N; a column that is not of views has none. Most lists are empty: that is looked at first.
fn list_in_range(s: BatchCoalescer, slots: &[u8], books: &[u8], slot: u32, c: u32) -> bool
    requires { (Sized s (length slots.now) (length books.now)) × (slot ≤ s.queue) × (c < s.columns) }
    ensures { result ≡ list_in_range (world s slots.now [] books.now) slot c }
{
    let count = slot_counts::list_length(s, books, slot, c);
    if count == 0 {
        return true;
    }
    let has_place = layout::is_views(s, c) && count <= s.lists;
    has_place && words_below(slots, layout::list_place(s, slot, c), count, s.numbers)
}

// 14, a slot: its rows within R, and its lists.
fn slot_in_range(s: BatchCoalescer, slots: &[u8], books: &[u8], slot: u32) -> bool
    requires { (Sized s (length slots.now) (length books.now)) × (slot ≤ s.queue) }
    ensures { result ≡ slot_in_range (world s slots.now [] books.now) slot }
{
    if s.rows.0 < slot_counts::rows_in(s, books, slot).0 {
        return false;
    }
    for c in 0..s.columns {
        if !list_in_range(s, slots, books, slot, c) {
            return false;
        }
    }
    true
}

// 14, every slot.
fn slots_in_range(s: BatchCoalescer, slots: &[u8], books: &[u8]) -> bool
    requires { Sized s (length slots.now) (length books.now) }
    ensures { result ≡ every (slot_in_range (world s slots.now [] books.now)) (s.queue + 1) }
{
    for slot in 0..=s.queue {
        if !slot_in_range(s, slots, books, slot) {
            return false;
        }
    }
    true
}

// 14: whether the state is in its ranges.
fn state_in_range(s: BatchCoalescer, slots: &[u8], books: &[u8]) -> bool
    requires { Sized s (length slots.now) (length books.now) }
    ensures { result ≡ state_in_range (world s slots.now [] books.now) }
{
    // Kept: & between the tests: && gives the proof a case of its own for each of them, and reads no plainer.
    s.place <= s.queue
        && ((s.buffered.0 < s.target.0)
            & (s.queued <= s.queue)
            & buffer_ranges::books_in_range(books, s.numbers, ByteSum(s.pool.0 as u64))
            & columns_in_range(s, books)
            & slots_in_range(s, slots, books))
}

// The tests in their order: 1, then 14; 0 where neither refuses.
pub fn tested(s: BatchCoalescer, slots: &[u8], pool: &[u8], books: &[u8]) -> u32
    ensures { result ≡ tested (world s slots.now pool.now books.now) }
{
    if !fits_set_up(s, slots.len(), pool.len(), books.len()) {
        return 1;
    }
    if state_in_range(s, slots, books) {
        0
    } else {
        14
    }
}
