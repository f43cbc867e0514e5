// The Arrow Columnar Format's views: 16 bytes a row that show bytes of their own or of a buffer.
// From arrow-select 60.0.0, src/coalesce/byte_view.rs, which takes views apart by `ByteView` and `MAX_INLINE_VIEW_LEN`.
// One set of functions serves Utf8View and BinaryView.
#![tactic(auto)]

ghost use Rattle.std.specs.Prelude.{◌≡◌, ◌+◌, ◌-◌, ◌≤◌, ◌<◌, length};
ghost use Rattle.views.specs.View.{view_of, with_view, bytes_of, zero_from, is_padded, filled, in_buffer, long_length, raised_by, repointed};
ghost use Rattle.views.specs.Raise.{Raises};
ghost use Rattle.views.specs.PadLaws.{at_most_four};

use counts::{ByteCount, ByteSum};

// The most bytes that stand in the view itself.
pub const MAX_INLINE_VIEW_LEN: u32 = 12;

// A view's four words. The bytes of an inline view stand in the last three.
#[derive(Clone, Copy)]
pub struct View {
    pub length: u32,
    pub prefix: u32,
    pub index: u32,
    pub offset: u32,
}

// Where a buffer lies in the pool: its start, the bytes that it occupies, and those that are filled.
#[derive(Clone, Copy)]
pub struct Buffer {
    pub start: u32,
    pub capacity: ByteCount,
    pub length: ByteCount,
}

// The view at `at`.
pub fn view_at(s: &[u8], at: usize) -> View
    requires { at + 16 ≤ length s.now }
    ensures { result ≡ view_of s.now at }
{
    View {
        length: words::get32(s, at),
        prefix: words::get32(s, at + 4),
        index: words::get32(s, at + 8),
        offset: words::get32(s, at + 12),
    }
}

// The view v at `at`, and nothing else changed.
pub fn put_view(s: &mut [u8], at: usize, v: View)
    requires { at + 16 ≤ length s.old }
    ensures { s.new ≡ with_view s.old at v }
{
    words::put32(s, at, v.length);
    words::put32(s, at + 4, v.prefix);
    words::put32(s, at + 8, v.index);
    words::put32(s, at + 12, v.offset);
}

// k, and 4 where it is more: a word has four bytes.
fn at_most_four(k: u32) -> u32
    ensures { (result ≡ at_most_four k) × (result < 5) }
{
    k.min(4)
}

// Whether the bytes of the word from byte k on are zero. A shift and no branches: rows of mixed lengths cost no more.
fn clear_from(word: u32, k: u32) -> bool
    ensures { result ≡ zero_from (bytes_of word) k 4 }
{
    let bits = 8 * at_most_four(k);
    (word as u64) >> bits == 0
}

// Whether the bytes behind those of an inline view are zero: of the 12, each word from where the bytes end.
pub fn is_padded(v: View) -> bool
    ensures { result ≡ is_padded v }
{
    let n = v.length;
    clear_from(v.prefix, n)
        && clear_from(v.index, n.saturating_sub(4))
        && clear_from(v.offset, n.saturating_sub(8))
}

// Whether a long view lies in the filled part of its buffer and begins with its bytes.
pub fn in_buffer(v: View, b: Buffer, pool: &[u8]) -> bool
    requires { (12 < v.length) × (b.start + b.length.0 ≤ length pool.now) }
    ensures { result ≡ in_buffer v (filled b pool.now) }
{
    let offset = v.offset as usize;
    let end = offset + (v.length as usize);
    end <= (b.length.0 as usize) && words::get32(pool, (b.start as usize) + offset) == v.prefix
}

// The bytes that a long view shows, and 0 for an inline one: what it adds to ideal.
pub fn long_length(v: View) -> ByteSum
    ensures { result.0 ≡ long_length v }
{
    if v.length <= MAX_INLINE_VIEW_LEN {
        ByteSum(0)
    } else {
        ByteSum(v.length as u64)
    }
}

// The view with its index raised by k if it is long; an inline view holds text there.
pub fn raise(v: View, k: u32) -> View
    requires { Raises v k }
    ensures { result ≡ raised_by k v }
{
    if MAX_INLINE_VIEW_LEN < v.length {
        View {
            index: v.index + k,
            ..v
        }
    } else {
        v
    }
}

// The view at another index and offset if it is long; an inline view holds text there.
pub fn repoint(v: View, index: u32, offset: u32) -> View
    ensures { result ≡ repointed index offset v }
{
    if v.length <= MAX_INLINE_VIEW_LEN {
        v
    } else {
        View { index, offset, ..v }
    }
}
