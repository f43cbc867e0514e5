// Columns of views: ideal and actual, the way, and the walk. `view_copies` copies and raises the views.
// From arrow-select 60.0.0, src/coalesce/byte_view.rs: `InProgressByteViewArray`. These functions know places in memory, and no state.
#![tactic(auto)]

ghost use Rattle.std.specs.Prelude.{◌≡◌, ◌+◌, ◌*◌, ◌≤◌, ◌<◌, ◌^◌, length};
ghost use Rattle.rules.specs.Batch.{way_of};
ghost use Rattle.rules.specs.Copies.{views_at, long_to};
ghost use Rattle.byte_view.specs.Copying.{capacities, walk_of, Entered};

use counts::{BufferNumber, ByteSum, RowCount};
use rules::Way;

// What is decided once of a pushed column, `Source` in the Rust: its ideal size, and the way that it goes.
#[derive(Clone, Copy)]
pub struct Source {
    pub ideal: ByteSum,
    pub way: Way,
}

// Ideal, `total_buffer_bytes_used`: the sum of the lengths over 12 of so many views from `at` of the body on, null rows too.
pub fn ideal_of(body: &[u8], at: usize, rows: RowCount) -> ByteSum
    requires { (rows.0 ≤ 65536) × (at + rows.0 * 16 ≤ length body.now) }
    ensures { (result.0 ≡ long_to (views_at body.now at) rows.0) × (result.0 < 2 ^ 49) }
{
    let mut sum: u64 = 0;
    for i in 0..rows.0 {
        let v = views::view_at(body, at + (i as usize) * 16);
        sum += views::long_length(v).0;
    }
    ByteSum(sum)
}

// Actual: the sum of the capacities of the `count` buffers listed from `list` of the body on.
pub fn actual_of(books: &[u8], body: &[u8], list: usize, count: u32) -> ByteSum
    requires { Entered books.now body.now list count }
    ensures { result.0 ≡ capacities books.now body.now list count }
{
    let mut sum: u64 = 0;
    for i in 0..count {
        let k = words::get32(body, list + 4 * (i as usize));
        let e = books::entry_at(books, BufferNumber(k));
        sum += e.capacity.0 as u64;
    }
    ByteSum(sum)
}

// The way of a column of views: copied where ideal is 0, compacted where actual is over twice ideal, else attached.
pub fn way_of(ideal: ByteSum, actual: ByteSum) -> Way
    requires { ideal.0 < 2 ^ 63 }
    ensures { result ≡ way_of ideal.0 actual.0 }
{
    if ideal.0 == 0 {
        return Way::Copied;
    }
    if 2 * ideal.0 < actual.0 {
        return Way::Compacted;
    }
    Way::Attached
}

// What the walk takes: so many views, and the bytes of the long ones among them.
#[derive(Clone, Copy)]
pub struct Walked {
    pub rows: RowCount,
    pub bytes: ByteSum,
}

// The walk over n views from `at` of the body on, while the rest is at least the length; long ones lower the rest.
pub fn walk(body: &[u8], at: usize, n: RowCount, rest: ByteSum) -> Walked
    requires { (n.0 ≤ 65536) × (at + n.0 * 16 ≤ length body.now) }
    ensures { (result ≡ walk_of (views_at body.now at) n.0 rest.0) × (result.rows.0 ≤ n.0) × (result.bytes.0 ≤ rest.0) }
{
    let mut left = rest.0;
    for i in 0..n.0 {
        let v = views::view_at(body, at + (i as usize) * 16);
        if left < (v.length as u64) {
            return Walked {
                rows: RowCount(i),
                bytes: ByteSum(rest.0 - left),
            };
        }
        left -= views::long_length(v).0;
    }
    Walked {
        rows: n,
        bytes: ByteSum(rest.0 - left),
    }
}

// Where copied views come from and go to: the first view in the body; its list there; the first place in the slots; and the open block:
// its index in the list, its start in the pool.
#[derive(Clone, Copy)]
pub struct Copying {
    pub from: usize,
    pub list: usize,
    pub count: u32,
    pub to: usize,
    pub index: u32,
    pub start: u32,
}
