// Pushing: small batches of rows in, batches of the target size out, in order.
// From arrow-select 60.0.0, src/coalesce.rs: `BatchCoalescer::push_batch`. The state goes by value; slots, pool and books are
// lent. A call that refuses, by 01's number, changes nothing.
#![tactic(auto)]

ghost use Rattle.std.specs.Prelude.{◌≡◌};
ghost use Rattle.state.specs.World.{world};
ghost use Rattle.rules.specs.Batch.{batch};
ghost use Rattle.rules.specs.Push.{stepped};
ghost use Rattle.rules.specs.Calls.{or_old, push_call};
ghost use Rattle.finishing.specs.Finish.{answered};
ghost use Rattle.coalesce.specs.Push.{Ready};

use counts::RowCount;
use rules::Step;
use state::BatchCoalescer;

// A push that passed its tests: the trial first, then the steps.
fn push_judged(
    s: BatchCoalescer,
    slots: &mut [u8],
    pool: &mut [u8],
    books: &mut [u8],
    records: &[u8],
    body: &[u8],
    rows: RowCount,
) -> Step
    requires { Ready s slots.old pool.old books.old (batch rows.0 records.now body.now) }
    ensures { answered result slots.new pool.new books.new
        ≡ or_old (world s slots.old pool.old books.old) (stepped (world s slots.old pool.old books.old) (batch rows.0 records.now body.now)) }
{
    let sources = routes::set_sources(s, books, records, body, rows);
    let lacking = trial::room_refusal(s, books, records, body, sources, rows);
    if lacking == 0 {
        steps::push_rows(s, slots, pool, books, records, body, sources, rows)
    } else {
        Step {
            state: s,
            number: lacking,
        }
    }
}

// push_batch: a batch of rows, its records and its body. The answer and the world of 01's call, whatever state and memory it is handed.
pub fn push_batch(
    s: BatchCoalescer,
    slots: &mut [u8],
    pool: &mut [u8],
    books: &mut [u8],
    records: &[u8],
    body: &[u8],
    rows: RowCount,
) -> Step
    ensures { answered result slots.new pool.new books.new
        ≡ push_call (world s slots.old pool.old books.old) (batch rows.0 records.now body.now) }
{
    match judging::judge(s, slots, pool, books, records, body, rows) {
        Ok(true) => push_judged(s, slots, pool, books, records, body, rows),
        Ok(false) => Step {
            state: s,
            number: 0,
        },
        Err(number) => Step { state: s, number },
    }
}
