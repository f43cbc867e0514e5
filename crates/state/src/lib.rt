// The state of the coalescer, by value: what set-up fixed, and what pushes change besides slots, pool and books.
// From arrow-select 60.0.0, src/coalesce.rs: the fields of `BatchCoalescer`; src/coalesce/byte_view.rs: `buffer_source` and
// `current` of `InProgressByteViewArray`.
#![tactic(auto)]

use blocks::BufferSource;
use counts::{BufferNumber, ByteCount, RowCount};

// A column: its kind, the block size that it keeps across batches, and its open block.
#[derive(Clone, Copy)]
pub struct Column {
    // Kept: 01, "Where the Rust must change shape": "kinds as numbers"; 02, K2 asks for a match on ranges of them.
    pub kind: u32,
    pub source: BufferSource,
    pub block: Option<BufferNumber>,
}

// The coalescer. target is T, rows R, queue Q, columns how many there are, lists B, numbers N, pool the bytes of the pool;
// place is the slot being filled, queued how many are queued before it, buffered the rows in it.
#[derive(Clone, Copy)]
pub struct BatchCoalescer {
    pub target: RowCount,
    pub rows: RowCount,
    pub queue: u32,
    pub columns: u32,
    pub lists: u32,
    pub numbers: u32,
    pub pool: ByteCount,
    pub limit: Option<RowCount>,
    pub place: u32,
    pub queued: u32,
    pub buffered: RowCount,
    pub column: [Column; 16],
}

// Where the bytes of a row's value are: in its row, from a start in the lent slots on; or in a buffer, from an offset on.
#[derive(Clone, Copy)]
pub enum Place {
    InRow(u64, ByteCount),
    InBuffer(BufferNumber, u32, ByteCount),
}

// What reading a row answers: null, a value and where it is, or the number of the refusal.
// Kept: 01, "The forms we expect": "row answer enum whose value case carries a place enum".
#[derive(Clone, Copy)]
pub enum RowAnswer {
    Null,
    Value(Place),
    Refused(u32),
}
