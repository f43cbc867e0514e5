// The calls on the state alone, which refuse nothing: the limit and its setter, the counts.
// From arrow-select 60.0.0, src/coalesce.rs: `biggest_coalesce_batch_size` and its setter, `get_buffered_rows`, `has_completed_batch`, `is_empty`.
#![tactic(auto)]

ghost use Rattle.std.specs.Prelude.{◌≡◌};
ghost use Rattle.rules.specs.Steps.{with_limit};
ghost use Rattle.rules.specs.Calls.{limit_of, buffered_count, has_completed, is_empty};

use counts::RowCount;
use state::BatchCoalescer;

// biggest_coalesce_batch_size, and its setter.
pub fn biggest_coalesce_batch_size(s: BatchCoalescer) -> Option<RowCount>
    ensures { result ≡ limit_of s }
{
    let limit = s.limit;
    limit
}

pub fn set_biggest_coalesce_batch_size(s: BatchCoalescer, limit: Option<RowCount>) -> BatchCoalescer
    ensures { result ≡ with_limit s limit }
{
    let mut t = s;
    t.limit = limit;
    t
}

// get_buffered_rows, has_completed_batch, is_empty.
pub fn get_buffered_rows(s: BatchCoalescer) -> RowCount
    ensures { result.0 ≡ buffered_count s }
{
    RowCount(s.buffered.0)
}

pub fn has_completed_batch(s: BatchCoalescer) -> bool
    ensures { result ≡ has_completed s }
{
    0 < s.queued
}

pub fn is_empty(s: BatchCoalescer) -> bool
    ensures { result ≡ is_empty s }
{
    s.buffered.0 == 0 && s.queued == 0
}
