// Views copied with their bytes, and views raised behind an attached list.
// From arrow-select 60.0.0, src/coalesce/byte_view.rs: `InProgressByteViewArray`. These functions know places in memory, and no state.
#![tactic(auto)]

ghost use Rattle.std.specs.Prelude.{◌≡◌, ◌+◌, ◌*◌, ◌≤◌, ◌<◌, ◌^◌, length};
ghost use Rattle.pool.specs.Carry.{carried};
ghost use Rattle.views.specs.View.{raised_by, repointed};
ghost use Rattle.rules.specs.Copies.{views_at, long_to, views_put, bytes_carried};
ghost use Rattle.byte_view.specs.Copying.{source_in, Entered, Spanned, Raisable, Carriable, Copyable, Copied};

use byte_view::Copying;
use counts::{BufferNumber, ByteCount, RowCount};
use views::View;

// n views of the body from `from` on, at `to` of the slots on, with k added to the index of long ones.
pub fn append_views_and_update_buffer_index(
    slots: &mut [u8],
    to: usize,
    body: &[u8],
    from: usize,
    n: RowCount,
    k: u32,
)
    requires { (Spanned body.now from (length slots.old) to n.0) × (Raisable body.now from n.0 k) }
    ensures { slots.new ≡ views_put (λ i. raised_by k (views_at body.now from i)) slots.old to n.0 }
{
    for i in 0..n.0 {
        let v = views::view_at(body, from + (i as usize) * 16);
        views::put_view(slots, to + (i as usize) * 16, views::raise(v, k));
    }
}

// Where the bytes of a long view lie in the pool.
fn source_place(books: &[u8], body: &[u8], j: Copying, v: View) -> usize
    requires { (Entered books.now body.now j.list j.count) × (v.index < j.count) }
    ensures { (result ≡ source_in books.now body.now j.list v) × (result < 2 ^ 33) }
{
    let k = words::get32(body, j.list + 4 * (v.index as usize));
    let e = books::entry_at(books, BufferNumber(k));
    (e.start as usize) + (v.offset as usize)
}

// The bytes of a long view, behind the `filled` bytes of the block.
fn carry_view(pool: &mut [u8], books: &[u8], body: &[u8], j: Copying, v: View, filled: ByteCount)
    requires { (Entered books.now body.now j.list j.count) × (v.index < j.count)
        × (source_in books.now body.now j.list v + v.length ≤ length pool.old) × (j.start + filled.0 + v.length ≤ length pool.old) }
    ensures { pool.new ≡ carried pool.old (source_in books.now body.now j.list v) (j.start + filled.0) v.length }
{
    let from = source_place(books, body, j, v);
    let to = (j.start as usize) + (filled.0 as usize);
    carrying::carry(pool, from, to, v.length as usize);
}

// View i of n: as it is where it is inline; else with its bytes behind the `filled` bytes of the block. Answers how many are filled then.
fn append_view(
    slots: &mut [u8],
    pool: &mut [u8],
    books: &[u8],
    body: &[u8],
    j: Copying,
    i: u32,
    filled: ByteCount,
) -> ByteCount
    requires { Copyable books.now body.now pool.old (length slots.old) j i filled.0 }
    ensures { Copied books.now body.now slots.old pool.old j i filled.0 slots.new pool.new result.0 }
{
    let at = j.to + (i as usize) * 16;
    let v = views::view_at(body, j.from + (i as usize) * 16);
    if v.length <= views::MAX_INLINE_VIEW_LEN {
        views::put_view(slots, at, v);
        return filled;
    }
    carry_view(pool, books, body, j, v, filled);
    views::put_view(slots, at, views::repoint(v, j.index, filled.0));
    ByteCount(filled.0 + v.length)
}

// n views, each with its bytes behind the `filled` bytes of the block: answers how many are filled then.
pub fn append_views_and_copy_strings_inner(
    slots: &mut [u8],
    pool: &mut [u8],
    books: &[u8],
    body: &[u8],
    j: Copying,
    n: RowCount,
    filled: ByteCount,
) -> ByteCount
    requires { (Spanned body.now j.from (length slots.old) j.to n.0) × (Carriable books.now body.now pool.old j n.0 filled.0) }
    ensures { (result.0 ≡ filled.0 + long_to (views_at body.now j.from) n.0)
        × (slots.new ≡ views_put (λ i. repointed j.index (filled.0 + long_to (views_at body.now j.from) i) (views_at body.now j.from i)) slots.old j.to n.0)
        × (pool.new ≡ bytes_carried (views_at body.now j.from) (source_in books.now body.now j.list) pool.old (j.start + filled.0) n.0) }
{
    let mut so_far = filled;
    for i in 0..n.0 {
        so_far = append_view(slots, pool, books, body, j, i, so_far);
    }
    so_far
}
