// The tests of a push in order, before anything of it is tried or done.
// Added by the port (01: "Order for a push: 1, 14, then step 1, then 2, 3, then per column 4, 5, 6, and 7 by rows.").
#![tactic(auto)]

ghost use Rattle.rules.specs.Batch.{batch};
ghost use Rattle.judging.specs.Judging.{Judges};

use counts::RowCount;
use state::BatchCoalescer;

// The tests of a push in order: 1, 14, then 0 rows, then 2 to 7. Whether there are rows to push, or the number that refuses them.
pub fn judge(
    s: BatchCoalescer,
    slots: &[u8],
    pool: &[u8],
    books: &[u8],
    records: &[u8],
    body: &[u8],
    rows: RowCount,
) -> Result<bool, u32>
    ensures { Judges s slots.now pool.now books.now (batch rows.0 records.now body.now) result }
{
    let number = ranges::tested(s, slots, pool, books);
    if number != 0 {
        return Err(number);
    }
    if rows.0 == 0 {
        return Ok(false);
    }
    match checks::batch_fault(s, pool, books, records, body, rows) {
        Ok(()) => Ok(true),
        Err(fault) => Err(fault.number),
    }
}
