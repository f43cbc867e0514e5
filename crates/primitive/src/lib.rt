// Values and validity of a column: runs of bytes and of bits put behind the rows of a slot.
// From arrow-select 60.0.0, src/coalesce/primitive.rs: `InProgressPrimitiveArray::copy_rows`. Columns of views whose bytes need no change
// use the same functions. They know places in memory, and no state.
#![tactic(auto)]

ghost use Rattle.std.specs.Prelude.{◌≡◌, ◌+◌, ◌*◌, length};
ghost use Rattle.words.specs.Run.{read, lay};
ghost use Rattle.bits.specs.Bits.{appended};
ghost use Rattle.primitive.specs.Fits.{bits_of, rows_laid, Bitmapped, Valued};

use counts::RowCount;
use rules::ColumnRecord;

// Which rows go where: `count` rows of the batch from row `from` on, behind the first `at` rows of a column that begins at `place` of the
// slots.
#[derive(Clone, Copy)]
pub struct Rows {
    pub column: u32,
    pub place: usize,
    pub at: u32,
    pub from: u32,
    pub count: RowCount,
}

// Their validity, in the `size` bytes of the bitmap from `begin` of the slots on: bits of the body, or ones where there are none.
pub fn copy_validity(
    slots: &mut [u8],
    begin: usize,
    size: usize,
    body: &[u8],
    r: ColumnRecord,
    p: Rows,
)
    requires { Bitmapped (length slots.old) begin size r (length body.now) p }
    ensures { slots.new ≡ lay begin (appended (read begin size slots.old) p.at (bits_of r body.now p.from) p.count.0) slots.old }
{
    let end = begin + size;
    let at = p.at as usize;
    let n = p.count.0 as usize;
    if r.validity == records::NO_VALIDITY {
        bit_runs::append_ones(&mut slots[begin..end], at, n);
        return;
    }
    let first = (r.first as usize) + (p.from as usize);
    bit_runs::append_bits(
        &mut slots[begin..end],
        at,
        body,
        r.validity as usize,
        first,
        n,
    );
}

// Their values, of `width` bytes each, as they stand in the body: null rows' too.
pub fn copy_values(slots: &mut [u8], body: &[u8], r: ColumnRecord, width: usize, p: Rows)
    requires { Valued (length slots.old) r (length body.now) width p }
    ensures { slots.new ≡ lay (p.place + p.at * width) (read (r.values + p.from * width) (p.count.0 * width) body.now) slots.old }
{
    let to = p.place + (p.at as usize) * width;
    let from = (r.values as usize) + (p.from as usize) * width;
    words::put_part(slots, to, body, from, (p.count.0 as usize) * width);
}

// Both, of a column that is copied as it stands.
pub fn copy_rows(
    slots: &mut [u8],
    begin: usize,
    size: usize,
    body: &[u8],
    r: ColumnRecord,
    width: usize,
    p: Rows,
)
    requires { (Bitmapped (length slots.old) begin size r (length body.now) p) × (Valued (length slots.old) r (length body.now) width p) }
    ensures { slots.new ≡ rows_laid begin size r body.now width p slots.old }
{
    copy_validity(slots, begin, size, body, r, p);
    copy_values(slots, body, r, width, p);
}
