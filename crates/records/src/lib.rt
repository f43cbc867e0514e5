// A column's record of a pushed batch, read from its eight words.
#![tactic(auto)]

ghost use Rattle.std.specs.Prelude.{◌≡◌, [], ◌+◌, ◌*◌, ◌≤◌, ◌<◌, length};
ghost use Rattle.rules.specs.Batch.{batch, record_of};

use rules::ColumnRecord;

// The start of validity that says that there is none.
pub const NO_VALIDITY: u32 = 4294967295;

// Column c's record.
pub fn record_at(records: &[u8], c: u32) -> ColumnRecord
    requires { (c < 16) × (32 * c + 32 ≤ length records.now) }
    ensures { result ≡ record_of (batch 0 records.now []) c }
{
    let at = 32 * (c as usize);
    ColumnRecord {
        kind: words::get32(records, at),
        values: words::get32(records, at + 4),
        validity: words::get32(records, at + 8),
        first: words::get32(records, at + 12),
        list: words::get32(records, at + 16),
        count: words::get32(records, at + 20),
        spare: words::get32(records, at + 24),
        spare2: words::get32(records, at + 28),
    }
}
