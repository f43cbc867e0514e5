// Where things lie in slots and books, and which slot follows which: docs/LAYOUT.md, computed.
// No function here reads or writes lent memory.
#![tactic(auto)]

ghost use Rattle.std.specs.Prelude.{◌≡◌, ◌+◌, ◌*◌, ◌-◌, ◌≤◌, ◌<◌};
ghost use Rattle.state.specs.World.{column_of};
ghost use Rattle.kinds.specs.Kind.{width_at};
ghost use Rattle.state.specs.Layout.{bytes_in, width_of, is_views, values_bytes, bitmap_bytes, list_bytes, columns_bytes, slot_bytes, values_place, bitmap_place, list_place, cell_place, slots_length, books_length, next_slot, slot_before, queued_slot};
ghost use Rattle.layout.specs.Few.{Few, size_of_kind};

use counts::RowCount;
use state::{BatchCoalescer, Column};

// Column c.
pub fn column_of(s: BatchCoalescer, c: u32) -> Column
    requires { c < 16 }
    ensures { result ≡ column_of s c }
{
    let at = c as usize;
    s.column[at]
}

// The bytes of one row of a kind.
pub fn width_in(kind: u32) -> usize
    ensures { (result ≡ bytes_in (width_at kind)) × (result ≤ 32) }
{
    let width = kinds::width_of(kind);
    match width {
        Some(n) => n as usize,
        None => 0,
    }
}

// The bytes of one row of column c.
pub fn width_of(s: BatchCoalescer, c: u32) -> usize
    requires { c < 16 }
    ensures { (result ≡ width_of s c) × (result ≤ 32) }
{
    width_in(column_of(s, c).kind)
}

// Whether column c is one of views.
pub fn is_views(s: BatchCoalescer, c: u32) -> bool
    requires { c < 16 }
    ensures { result ≡ is_views s c }
{
    kinds::is_view(column_of(s, c).kind)
}

// The bytes of the values of column c.
pub fn values_bytes(s: BatchCoalescer, c: u32) -> usize
    requires { (Few s) × (c < 16) }
    ensures { (result ≡ values_bytes s c) × (result ≤ 2097152) }
{
    (s.rows.0 as usize) * width_of(s, c)
}

// The bytes of a bitmap.
pub fn bitmap_bytes(s: BatchCoalescer) -> usize
    requires { Few s }
    ensures { (result ≡ bitmap_bytes s) × (result ≤ 8192) }
{
    ((s.rows.0 as usize) + 7) / 8
}

// The bytes of the list of column c.
pub fn list_bytes(s: BatchCoalescer, c: u32) -> usize
    requires { (Few s) × (c < 16) }
    ensures { (result ≡ list_bytes s c) × (result ≤ 4096) }
{
    if is_views(s, c) {
        4 * (s.lists as usize)
    } else {
        0
    }
}

// The bytes of a column of a kind in a slot of so many rows, with room for a list of so many numbers where it is one of views.
pub fn column_size(kind: u32, rows: RowCount, lists: u32) -> usize
    requires { (rows.0 ≤ 65536) × (lists ≤ 1024) }
    ensures { (result ≡ size_of_kind kind rows.0 lists) × (result ≤ 2109440) }
{
    let bitmap = ((rows.0 as usize) + 7) / 8;
    let values = (rows.0 as usize) * width_in(kind);
    if kinds::is_view(kind) {
        values + (bitmap + 4 * (lists as usize))
    } else {
        values + bitmap
    }
}

// The bytes of the first c columns of a slot.
pub fn columns_bytes(s: BatchCoalescer, c: u32) -> usize
    requires { (Few s) × (c ≤ 16) }
    ensures { (result ≡ columns_bytes s c) × (result ≤ 2109440 * c) }
{
    let mut sum: usize = 0;
    for i in 0..c {
        sum += column_size(s.column[i as usize].kind, s.rows, s.lists);
    }
    sum
}

// The bytes of a slot.
pub fn slot_bytes(s: BatchCoalescer) -> usize
    requires { Few s }
    ensures { (result ≡ slot_bytes s) × (result ≤ 33751040) }
{
    columns_bytes(s, s.columns)
}

// Where column c of a slot has its values.
pub fn values_place(s: BatchCoalescer, slot: u32, c: u32) -> usize
    requires { (Few s) × (slot ≤ 1024) × (c < 16) }
    ensures { (result ≡ values_place s slot c) × (result ≤ 35000000000) }
{
    let size = slot_bytes(s);
    (slot as usize) * size + columns_bytes(s, c)
}

// Where column c of a slot has its bitmap.
pub fn bitmap_place(s: BatchCoalescer, slot: u32, c: u32) -> usize
    requires { (Few s) × (slot ≤ 1024) × (c < 16) }
    ensures { (result ≡ bitmap_place s slot c) × (result ≤ 36000000000) }
{
    values_place(s, slot, c) + values_bytes(s, c)
}

// Where column c of a slot has its list.
pub fn list_place(s: BatchCoalescer, slot: u32, c: u32) -> usize
    requires { (Few s) × (slot ≤ 1024) × (c < 16) }
    ensures { (result ≡ list_place s slot c) × (result ≤ 37000000000) }
{
    bitmap_place(s, slot, c) + bitmap_bytes(s)
}

// Where row i of column c of a slot begins.
pub fn cell_place(s: BatchCoalescer, slot: u32, c: u32, i: u32) -> usize
    requires { (Few s) × (slot ≤ 1024) × (c < 16) × (i ≤ 65536) }
    ensures { (result ≡ cell_place s slot c i) × (result ≤ 36000000000) }
{
    let width = width_of(s, c);
    values_place(s, slot, c) + (i as usize) * width
}

// The length of the slots.
pub fn slots_length(s: BatchCoalescer) -> usize
    requires { Few s }
    ensures { result ≡ slots_length s }
{
    ((s.queue as usize) + 1) * slot_bytes(s)
}

// The length of the books.
pub fn books_length(s: BatchCoalescer) -> usize
    requires { Few s }
    ensures { result ≡ books_length s }
{
    4 + 20 * (s.numbers as usize) + 4 * (1 + (s.columns as usize)) * ((s.queue as usize) + 1)
}

// The slot behind one: slots in turn.
pub fn next_slot(s: BatchCoalescer, slot: u32) -> u32
    requires { (Few s) × (slot ≤ s.queue) }
    ensures { (result ≡ next_slot s slot) × (result ≤ s.queue) }
{
    if s.queue <= slot { 0 } else { slot + 1 }
}

// The slot k before one.
fn slot_before(s: BatchCoalescer, slot: u32, k: u32) -> u32
    requires { (Few s) × (slot ≤ s.queue) × (k ≤ s.queue) }
    ensures { (result ≡ slot_before s slot k) × (result ≤ s.queue) }
{
    if k <= slot {
        slot - k
    } else {
        slot + (s.queue + 1) - k
    }
}

// The slot of the front batch: the one that is queued longest.
pub fn front_slot(s: BatchCoalescer) -> u32
    requires { (Few s) × (s.place ≤ s.queue) × (s.queued ≤ s.queue) }
    ensures { (result ≡ queued_slot s 0) × (result ≤ s.queue) }
{
    slot_before(s, s.place, s.queued)
}
