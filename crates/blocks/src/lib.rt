// Block sizes: how large a block the port opens for copied bytes.
// From arrow-select 60.0.0, src/coalesce/byte_view.rs: `BufferSource`, by value where the Rust has `&mut self`.
#![tactic(auto)]

ghost use Rattle.std.specs.Prelude.{◌≡◌, ◌≤◌};
ghost use Rattle.blocks.specs.Block.{doubled, grown, kept, asked, fresh};

use counts::{ByteCount, ByteSum};

const STARTING_BLOCK_SIZE: u32 = 4096;

const MAX_BLOCK_SIZE: u32 = 1048576;

// The size that a view column keeps across batches.
#[derive(Clone, Copy)]
pub struct BufferSource {
    pub current: ByteCount,
}

// What an ask gives: the size of the block, and the source with the size that is kept.
// Kept: `open_blocks` and `trial_column` call `next_size` by value, and `asked` says it so.
#[derive(Clone, Copy)]
pub struct NextSize {
    pub source: BufferSource,
    pub size: ByteSum,
}

// The size doubled, if it is below the largest.
fn double(size: ByteCount) -> ByteCount
    ensures { result.0 ≡ doubled size.0 }
{
    if size.0 < MAX_BLOCK_SIZE {
        ByteCount(size.0 * 2)
    } else {
        size
    }
}

// The size doubled while it is at most the minimum and below the largest.
fn grow(size: ByteCount, min: ByteSum) -> ByteCount
    requires { 1 ≤ size.0 }
    ensures { result.0 ≡ grown size.0 min.0 }
{
    let mut s = size.0;
    // Kept: nothing is counted; the size doubles until a test ends it.
    while (s as u64) <= min.0 && s < MAX_BLOCK_SIZE {
        s = s * 2;
    }
    ByteCount(s)
}

// The size that one ask keeps.
fn keep(size: ByteCount, min: ByteSum) -> ByteCount
    requires { 1 ≤ size.0 }
    ensures { result.0 ≡ kept size.0 min.0 }
{
    let once = double(size);
    if (once.0 as u64) < min.0 {
        grow(once, min)
    } else {
        once
    }
}

impl BufferSource {
    // The source of a fresh column.
    pub fn new() -> BufferSource
        ensures { result ≡ fresh }
    {
        BufferSource {
            current: ByteCount(STARTING_BLOCK_SIZE),
        }
    }

    // One ask: a block of at least min bytes.
    pub fn next_size(self, min: ByteSum) -> NextSize
        requires { 1 ≤ self.current.0 }
        ensures { result ≡ asked self min }
    {
        let size = keep(self.current, min);
        NextSize {
            source: BufferSource { current: size },
            size: ByteSum(counts::larger(size.0 as u64, min.0)),
        }
    }
}
