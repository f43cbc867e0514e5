// Counts that are kept apart: rows, bytes, sums of bytes, and the numbers of buffers.
// 01: "Counts of rows, counts of bytes and buffer numbers are kept apart, as 000 and 001 name them apart."
#![tactic(auto)]

ghost use Rattle.std.specs.Prelude.{◌≡◌, max, min};

// A count of rows: the target, a slot's rows, the rows of a batch, the rows buffered.
#[derive(Clone, Copy)]
pub struct RowCount(pub u32);

// A count of bytes that lie in the pool: a capacity, a length, a kept block size.
#[derive(Clone, Copy)]
pub struct ByteCount(pub u32);

// A sum of counts of bytes, which may pass what a pool can hold: ideal, actual, the size that is asked of a block.
#[derive(Clone, Copy)]
pub struct ByteSum(pub u64);

// The number of a buffer in the books.
#[derive(Clone, Copy)]
pub struct BufferNumber(pub u32);

// The larger of two numbers.
pub fn larger(a: u64, b: u64) -> u64
    ensures { result ≡ max a b }
{
    b.max(a)
}

// The smaller of two numbers.
pub fn smaller(a: u64, b: u64) -> u64
    ensures { result ≡ min a b }
{
    b.min(a)
}
