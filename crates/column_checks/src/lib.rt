// The checks 4 to 7 of one column of a pushed batch: its rules, where it lies, whether its buffers are held, its first bad row.
// Added by the port (01, "A pushed batch"); the Rust leaves them to the types of its arrays.
#![tactic(auto)]

ghost use Rattle.std.specs.Prelude.{◌≡◌, true, ◌+◌, ◌*◌, ◌≤◌, ◌<◌, ◌^◌, length};
ghost use Rattle.books.specs.Entry.{used_of};
ghost use Rattle.pool.specs.Register.{is_held};
ghost use Rattle.views.specs.View.{is_valid};
ghost use Rattle.rules.specs.Batch.{bytes_listed};
ghost use Rattle.rules.specs.Checks.{is_ruled, in_body, bitmap_need, lies_within, held_all};
ghost use Rattle.column_checks.specs.Tested.{bit_ruled, list_ruled, bits_within, buffer_in, bad_in, Heeded};

use counts::{BufferNumber, ByteCount, ByteSum, RowCount};
use rules::ColumnRecord;
use views::{Buffer, View};

// 4: no validity, no first bit.
fn bit_ruled(r: ColumnRecord) -> bool
    ensures { result ≡ bit_ruled r }
{
    r.validity != records::NO_VALIDITY || r.first == 0
}

// 4: an empty list begins nowhere, and only views have another.
fn list_ruled(r: ColumnRecord, kind: u32) -> bool
    ensures { result ≡ list_ruled r kind }
{
    if r.count == 0 {
        r.list == 0
    } else {
        kinds::is_view(kind)
    }
}

// 4: whether the record is of the kind and keeps the rules.
pub fn keeps_rules(r: ColumnRecord, kind: u32) -> bool
    ensures { result ≡ is_ruled r kind }
{
    // Kept: & between the tests: && gives the proof a case of its own for each of them, and reads no plainer.
    (r.kind == kind) & (r.spare == 0) & (r.spare2 == 0) & bit_ruled(r) & list_ruled(r, kind)
}

// Whether n bytes from a start on lie in so many; no bytes need no place.
fn in_body(start: u32, n: ByteSum, size: ByteSum) -> bool
    requires { n.0 < 2 ^ 40 }
    ensures { result ≡ in_body start n.0 size.0 }
{
    n.0 == 0 || (start as u64) + n.0 <= size.0
}

// The bytes of a bitmap that begins with bit `first`, through the byte of the last row's bit.
fn bitmap_need(first: u32, rows: RowCount) -> ByteSum
    requires { rows.0 ≤ 65536 }
    ensures { (result.0 ≡ bitmap_need first rows.0) × (result.0 < 2 ^ 40) }
{
    if rows.0 == 0 {
        ByteSum(0)
    } else {
        ByteSum(((first as u64) + (rows.0 as u64) + 7) / 8)
    }
}

// 5: whether the bitmap, if there is one, lies in a body of so many bytes.
fn bits_in_body(r: ColumnRecord, rows: RowCount, size: ByteSum) -> bool
    requires { rows.0 ≤ 65536 }
    ensures { result ≡ bits_within r rows.0 size.0 }
{
    r.validity == records::NO_VALIDITY || in_body(r.validity, bitmap_need(r.first, rows), size)
}

// 5: whether values, bitmap and list lie in a body of so many bytes.
pub fn lies_in_body(r: ColumnRecord, rows: RowCount, width: u32, size: ByteSum) -> bool
    requires { (rows.0 ≤ 65536) × (width ≤ 32) }
    ensures { result ≡ lies_within r rows.0 width size.0 }
{
    // Kept: & between the tests: && gives the proof a case of its own for each of them, and reads no plainer.
    in_body(r.values, ByteSum((rows.0 as u64) * (width as u64)), size)
        & bits_in_body(r, rows, size)
        & in_body(r.list, ByteSum(4 * (r.count as u64)), size)
}

// Whether the caller holds a buffer.
fn is_held(books: &[u8], k: BufferNumber) -> bool
    requires { 4 + 20 * used_of books.now ≤ length books.now }
    ensures { result ≡ is_held books.now k.0 }
{
    k.0 < words::get32(books, 0) && books::entry_at(books, k).hold != 0
}

// 6: whether the caller holds each of the `count` buffers that are listed from `list` of the body on.
pub fn all_held(books: &[u8], body: &[u8], list: u32, count: u32) -> bool
    requires { (4 + 20 * used_of books.now ≤ length books.now) × (list + 4 * count ≤ length body.now) }
    ensures { result ≡ held_all books.now body.now list count }
{
    for i in 0..count {
        let k = BufferNumber(words::get32(body, (list as usize) + 4 * (i as usize)));
        if !is_held(books, k) {
            return false;
        }
    }
    true
}

// The buffer of a number.
fn buffer_of(books: &[u8], k: BufferNumber) -> Buffer
    requires { 24 + 20 * k.0 ≤ length books.now }
    ensures { result ≡ buffer_in books.now k.0 }
{
    let e = books::entry_at(books, k);
    Buffer {
        start: e.start,
        capacity: ByteCount(e.capacity.0),
        length: ByteCount(e.length.0),
    }
}

// Whether a view is valid against the `count` buffers listed from `list` of the body on, each of which the caller holds.
fn is_valid(v: View, books: &[u8], pool: &[u8], body: &[u8], list: u32, count: u32) -> bool
    requires { Heeded books.now pool.now body.now list count }
    ensures { result ≡ is_valid v (bytes_listed books.now pool.now body.now list) count }
{
    if v.length <= views::MAX_INLINE_VIEW_LEN {
        views::is_padded(v)
    } else if v.index < count {
        let k = words::get32(body, (list as usize) + 4 * (v.index as usize));
        let b = buffer_of(books, BufferNumber(k));
        views::in_buffer(v, b, pool)
    } else {
        false
    }
}

// 7: the first of the rows whose view is not valid.
pub fn bad_row(
    books: &[u8],
    pool: &[u8],
    body: &[u8],
    r: ColumnRecord,
    rows: RowCount,
) -> Option<u32>
    requires { (Heeded books.now pool.now body.now r.list r.count) × (rows.0 ≤ 65536) × (in_body r.values (rows.0 * 16) (length body.now) ≡ true) }
    ensures { result ≡ bad_in books.now pool.now body.now r rows.0 }
{
    for i in 0..rows.0 {
        let v = views::view_at(body, (r.values as usize) + (i as usize) * 16);
        if !is_valid(v, books, pool, body, r.list, r.count) {
            return Some(i);
        }
    }
    None
}
