// Finishing as a call: the tests of 1 and 14, then each open block joins its list and the slot being filled is queued.
// From arrow-select 60.0.0, src/coalesce.rs: `BatchCoalescer::finish_buffered_batch`. A call that refuses, by 01's number, changes nothing.
#![tactic(auto)]

ghost use Rattle.std.specs.Prelude.{◌≡◌};
ghost use Rattle.state.specs.World.{world};
ghost use Rattle.rules.specs.Calls.{finish_call};
ghost use Rattle.finishing.specs.Finish.{answered};

use rules::Step;
use state::BatchCoalescer;

// finish_buffered_batch: the answer and the world of 01's call, whatever state and memory it is handed. 1, 14, 9.
pub fn finish_buffered_batch(
    s: BatchCoalescer,
    slots: &mut [u8],
    pool: &[u8],
    books: &mut [u8],
) -> Step
    ensures { answered result slots.new pool.now books.new ≡ finish_call (world s slots.old pool.now books.old) }
{
    let refusal = ranges::tested(s, slots, pool, books);
    if refusal == 0 {
        finishing::finish(s, slots, books)
    } else {
        Step {
            state: s,
            number: refusal,
        }
    }
}
