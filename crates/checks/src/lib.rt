// The checks of a pushed batch, 2 to 7 in their order: the first column and row at fault.
// Added by the port (01, "A pushed batch"); the Rust leaves them to the types of its arrays.
#![tactic(auto)]

ghost use Rattle.std.specs.Prelude.{◌≡◌, true, [], ◌+◌, ◌*◌, ◌≤◌, ◌<◌, length};
ghost use Rattle.state.specs.World.{world, column_of};
ghost use Rattle.rules.specs.Batch.{batch};
ghost use Rattle.rules.specs.Checks.{in_body, column_fault, batch_fault};
ghost use Rattle.checks.specs.Checked.{fault_at, refused_by, row_refused};
ghost use Rattle.column_checks.specs.Tested.{bad_in, Pooled, Heeded};

use counts::{ByteSum, RowCount};
use rules::{ColumnRecord, Fault};
use state::{BatchCoalescer, Column};

// The refusal by a fault.
fn refused(number: u32, column: u32, row: u32) -> Result<(), Fault>
    ensures { result ≡ Err (fault_at number column row) }
{
    Err(Fault {
        number,
        column,
        row,
    })
}

// 7 for column c: the first row at fault, where it is a column of views.
fn row_fault(
    books: &[u8],
    pool: &[u8],
    body: &[u8],
    r: ColumnRecord,
    rows: RowCount,
    c: u32,
) -> Result<(), Fault>
    requires { (Heeded books.now pool.now body.now r.list r.count) × (rows.0 ≤ 65536) × (in_body r.values (rows.0 * 16) (length body.now) ≡ true) }
    ensures { result ≡ row_refused c (bad_in books.now pool.now body.now r rows.0) }
{
    match column_checks::bad_row(books, pool, body, r, rows) {
        Some(row) => refused(7, c, row),
        None => Ok(()),
    }
}

// 4 to 7 for column c: its first fault.
fn column_fault(
    s: BatchCoalescer,
    column: Column,
    pool: &[u8],
    books: &[u8],
    records: &[u8],
    body: &[u8],
    rows: RowCount,
    c: u32,
) -> Result<(), Fault>
    requires { (Pooled books.now pool.now) × (s.columns ≤ 16) × (c < s.columns) × (rows.0 ≤ 65536) × (32 * s.columns ≤ length records.now) × (column ≡ column_of s c) }
    ensures { result ≡ refused_by (column_fault (world s [] pool.now books.now) (batch rows.0 records.now body.now) c) }
{
    let kind = column.kind;
    let width = layout::width_in(kind) as u32;
    let r = records::record_at(records, c);
    if !column_checks::keeps_rules(r, kind) {
        return refused(4, c, 0);
    }
    if !column_checks::lies_in_body(r, rows, width, ByteSum(body.len() as u64)) {
        return refused(5, c, 0);
    }
    if !column_checks::all_held(books, body, r.list, r.count) {
        return refused(6, c, 0);
    }
    if kinds::is_view(kind) {
        row_fault(books, pool, body, r, rows, c)
    } else {
        Ok(())
    }
}

// The first fault of a batch: 2, 3, then by columns.
pub fn batch_fault(
    s: BatchCoalescer,
    pool: &[u8],
    books: &[u8],
    records: &[u8],
    body: &[u8],
    rows: RowCount,
) -> Result<(), Fault>
    requires { (Pooled books.now pool.now) × (s.columns ≤ 16) × (s.rows.0 ≤ 65536) }
    ensures { result ≡ refused_by (batch_fault (world s [] pool.now books.now) (batch rows.0 records.now body.now)) }
{
    if records.len() != 32 * (s.columns as usize) {
        return refused(2, 0, 0);
    }
    if s.rows.0 < rows.0 {
        return refused(3, 0, 0);
    }
    for c in 0..s.columns {
        column_fault(s, s.column[c as usize], pool, books, records, body, rows, c)?;
    }
    Ok(())
}
