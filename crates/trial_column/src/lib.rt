// A part of one column on trial: on state and books alone, a block that the push would open marked in the books.
// Added by the port (01: "Room is worked out along the push steps; the first step without it names the number").
#![tactic(auto)]

ghost use Rattle.std.specs.Prelude.{◌≡◌, true, ◌+◌, ◌*◌, ◌≤◌, ◌<◌, length};
ghost use Rattle.state.specs.Layout.{is_views};
ghost use Rattle.trial_truth.specs.Like.{Buffers, TellsAttached, TellsCompacted, TellsColumn};
ghost use Rattle.trial_column.specs.Trying.{Trying, TriesColumn, Bufferable, Compactable};

use byte_view::Source;
use counts::{ByteSum, RowCount};
use rules::{ColumnRecord, Step, Way};
use state::BatchCoalescer;

// next_buffer on trial, where the list has n numbers: 10, then 11 and 12.
fn try_buffer(s: BatchCoalescer, books: &mut [u8], c: u32, n: u32, min: ByteSum) -> Step
    requires { Bufferable s books.old c n }
    ensures { (TriesColumn s books.old result.state books.new)
        × (Buffers s books.old c n min.0 result books.new) }
{
    if n < s.lists {
        let column = layout::column_of(s, c);
        let source = column.source;
        let next = source.next_size(min);
        let size = next.size;
        let chosen = making_room::try_block(books, s.numbers, s.pool, size);
        match chosen {
            Err(number) => Step { state: s, number },
            Ok(r) => {
                let kept = next.source;
                let number = r.number;
                let t = columns::with_column(s, c, kept, Some(number));
                Step {
                    state: t,
                    number: 0,
                }
            }
        }
    } else {
        Step {
            state: s,
            number: 10,
        }
    }
}

// compact on trial: n rows from `from` on.
fn try_compact(
    s: BatchCoalescer,
    books: &mut [u8],
    body: &[u8],
    r: ColumnRecord,
    ideal: ByteSum,
    c: u32,
    from: u32,
    n: RowCount,
) -> Step
    requires { (Trying s books.old) × (c < s.columns) × (is_views s c ≡ true) × (from + n.0 ≤ 65536)
        × (r.values + (from + n.0) * 16 ≤ length body.now) }
    ensures { (TriesColumn s books.old result.state books.new)
        × (TellsCompacted s books.old body.now r ideal.0 c from n.0 result books.new) }
{
    let list = columns::list_closed(s, books, c);
    let block = layout::column_of(s, c).block;
    match block {
        None => try_buffer(s, books, c, list, ideal),
        Some(k) => {
            let rest = columns::rest_of(books, k);
            if ideal.0 <= rest.0 {
                Step {
                    state: s,
                    number: 0,
                }
            } else {
                let at = (r.values as usize) + (from as usize) * 16;
                let walked = byte_view::walk(body, at, n, rest);
                try_buffer(s, books, c, list, ByteSum(ideal.0 - walked.bytes.0))
            }
        }
    }
}

// attach on trial: 10, the block counted.
fn try_attach(s: BatchCoalescer, books: &[u8], r: ColumnRecord, c: u32) -> Step
    requires { (Trying s books.now) × (c < s.columns) }
    ensures { (TriesColumn s books.now result.state books.now) × (TellsAttached s books.now r c result) }
{
    let n = columns::list_closed(s, books, c);
    if (n as u64) + (r.count as u64) <= (s.lists as u64) {
        let source = layout::column_of(s, c).source;
        let t = columns::with_column(s, c, source, None);
        Step {
            state: t,
            number: 0,
        }
    } else {
        Step {
            state: s,
            number: 10,
        }
    }
}

// copy_rows on trial: n rows from `from` on, of column c.
pub fn try_column(
    s: BatchCoalescer,
    books: &mut [u8],
    body: &[u8],
    r: ColumnRecord,
    source: Source,
    c: u32,
    from: u32,
    n: RowCount,
) -> Step
    requires { (Trying s books.old) × (c < s.columns) × (Compactable s body.now r source.way c from n.0) }
    ensures { (TriesColumn s books.old result.state books.new)
        × (TellsColumn s books.old body.now r source c from n.0 result books.new) }
{
    let way = source.way;
    match way {
        Way::Copied => Step {
            state: s,
            number: 0,
        },
        Way::Attached => try_attach(s, books, r, c),
        Way::Compacted => {
            let ideal = source.ideal;
            try_compact(s, books, body, r, ideal, c, from, n)
        }
    }
}
