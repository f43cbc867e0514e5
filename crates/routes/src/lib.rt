// What is decided of a push before it is tried or done: of each column, and which way the batch goes.
// From arrow-select 60.0.0, src/coalesce.rs: the first lines of `push_batch`.
#![tactic(auto)]

ghost use Rattle.std.specs.Prelude.{◌≡◌, ◌+◌, ◌<◌, [], length};
ghost use Rattle.state.specs.World.{world};
ghost use Rattle.rules.specs.Batch.{batch};
ghost use Rattle.rules.specs.Push.{over_limit};
ghost use Rattle.columns.specs.Pushing.{Pushing};
ghost use Rattle.routes.specs.Sourced.{Sourced};
ghost use Rattle.routes.specs.Route.{route_of};

use byte_view::Source;
use counts::{ByteSum, RowCount};
use rules::Way;
use state::BatchCoalescer;

// What is decided of each column of a batch.
#[derive(Clone, Copy)]
pub struct Sources {
    pub column: [Source; 16],
}

// Nothing decided yet.
fn no_sources() -> Sources
    ensures { length result.column ≡ 16 }
{
    let nothing = Source {
        ideal: ByteSum(0),
        way: Way::Copied,
    };
    Sources {
        column: [nothing; 16],
    }
}

// set_source of each column.
pub fn set_sources(
    s: BatchCoalescer,
    books: &[u8],
    records: &[u8],
    body: &[u8],
    rows: RowCount,
) -> Sources
    requires { Pushing s books.now (batch rows.0 records.now body.now) }
    ensures { Sourced result (world s [] [] books.now) (batch rows.0 records.now body.now) }
{
    let mut all = no_sources();
    for c in 0..s.columns {
        all.column[c as usize] = columns::set_source(s, books, records, body, rows, c);
    }
    all
}

// Step 2: which way a batch of so many rows goes.
#[derive(Clone, Copy)]
pub enum Route {
    Coalesce,
    Whole,
    FinishFirst,
}

fn is_over(limit: Option<RowCount>, rows: RowCount) -> bool
    ensures { result ≡ over_limit limit rows.0 }
{
    match limit {
        Some(most) => most.0 < rows.0,
        None => false,
    }
}

pub fn route_of(s: BatchCoalescer, rows: RowCount) -> Route
    ensures { result ≡ route_of s rows.0 }
{
    let limit = s.limit;
    if !is_over(limit, rows) {
        Route::Coalesce
    } else if s.buffered.0 == 0 {
        Route::Whole
    } else if is_over(limit, s.buffered) {
        Route::FinishFirst
    } else {
        Route::Coalesce
    }
}
