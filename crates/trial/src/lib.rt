// The trial of a push: its steps on state and books alone, before the first lent byte is written, with the books put back after it.
// Added by the port (01: "Room is worked out along the push steps; the first step without it names the number").
#![tactic(auto)]

ghost use Rattle.std.specs.Prelude.{◌≡◌, ◌+◌, ◌*◌, ◌≤◌, ◌<◌, [], length};
ghost use Rattle.layout.specs.Few.{Few};
ghost use Rattle.state.specs.World.{world};
ghost use Rattle.rules.specs.Batch.{batch};
ghost use Rattle.columns.specs.Pushing.{Pushing};
ghost use Rattle.routes.specs.Sourced.{Sourced};
ghost use Rattle.trial_truth.specs.Tells.{closed_at, closed_to, TellsPart, TellsFinished, TellsThen, TellsRows, TellsFirst, Tells};
ghost use Rattle.room.specs.Back.{Unmarked, Tried};
ghost use Rattle.trial_truth.specs.Like.{OwnBlocks};
ghost use Rattle.trial.specs.Trial.{Answers};
ghost use Rattle.trial_column.specs.Trying.{Trying};
ghost use Rattle.trial.specs.Tried.{TriesPart, TriesThen, TriesFinish, ClosesFirst, Triable};

use counts::RowCount;
use routes::{Route, Sources};
use rules::{Step, Way};
use state::BatchCoalescer;

// copy_rows on trial of every column: n rows from `from` on, which are then buffered.
// Kept: apart from steps::copy_part, as one function for both takes a closure a step, over memories that a trial is not lent: no plainer.
fn try_part(
    s: BatchCoalescer,
    books: &mut [u8],
    records: &[u8],
    body: &[u8],
    sources: Sources,
    from: u32,
    n: RowCount,
) -> Step
    requires { (Trying s books.old) × (Triable s sources (batch (from + n.0) records.now body.now))
        × (s.buffered.0 + n.0 ≤ 65536) }
    ensures { (TriesPart s books.old n.0 result books.new)
        × (TellsPart s books.old sources records.now body.now from n.0 result books.new) }
{
    let mut t = s;
    for c in 0..s.columns {
        let source = sources.column[c as usize];
        let r = records::record_at(records, c);
        let way = source.way;
        if let Way::Copied = way {
            continue;
        }
        let step = trial_column::try_column(t, books, body, r, source, c, from, n);
        if step.number != 0 {
            return step;
        }
        t = step.state;
    }
    let buffered = RowCount(s.buffered.0 + n.0);
    t.buffered = buffered;
    Step {
        state: t,
        number: 0,
    }
}

// The block of column c closed, if it is one of views.
fn close_one(s: BatchCoalescer, c: u32) -> BatchCoalescer
    requires { c < 16 }
    ensures { result ≡ closed_at s c }
{
    if layout::is_views(s, c) {
        let source = layout::column_of(s, c).source;
        columns::with_column(s, c, source, None)
    } else {
        s
    }
}

// Every column's block closed.
fn close_all(s: BatchCoalescer) -> BatchCoalescer
    requires { s.columns ≤ 16 }
    ensures { (ClosesFirst s result s.columns) × (result ≡ closed_to s s.columns) }
{
    let mut t = s;
    for c in 0..s.columns {
        let column = s.column[c as usize];
        if !kinds::is_view(column.kind) {
            continue;
        }
        t = close_one(t, c);
    }
    t
}

// Finishing on trial: 9.
fn try_finish(s: BatchCoalescer) -> Step
    requires { (Few s) × (s.place ≤ s.queue) }
    ensures { (TriesFinish s result) × (TellsFinished s result) }
{
    if s.buffered.0 == 0 {
        Step {
            state: s,
            number: 0,
        }
    } else if s.queued < s.queue {
        let t = close_all(s);
        let u = slot_counts::next_to_fill(t);
        Step {
            state: u,
            number: 0,
        }
    } else {
        Step {
            state: s,
            number: 9,
        }
    }
}

// A part, then finishing if the slot is full.
fn try_and_finish(
    s: BatchCoalescer,
    books: &mut [u8],
    records: &[u8],
    body: &[u8],
    sources: Sources,
    from: u32,
    n: RowCount,
) -> Step
    requires { (Trying s books.old) × (Triable s sources (batch (from + n.0) records.now body.now))
        × (s.buffered.0 + n.0 ≤ 65536) }
    ensures { (TriesThen s books.old n.0 result books.new)
        × (TellsThen s books.old sources records.now body.now from n.0 result books.new) }
{
    let step = try_part(s, books, records, body, sources, from, n);
    if step.number == 0 {
        let t = step.state;
        if t.buffered.0 == s.target.0 {
            try_finish(t)
        } else {
            step
        }
    } else {
        step
    }
}

// Steps 3 and 4 on trial.
fn try_rows(
    s: BatchCoalescer,
    books: &mut [u8],
    records: &[u8],
    body: &[u8],
    sources: Sources,
    rows: RowCount,
) -> u32
    requires { (Trying s books.old) × (Triable s sources (batch rows.0 records.now body.now))
        × (s.buffered.0 < s.target.0) }
    ensures { (Tried books.old books.new s.numbers)
        × (TellsRows s books.old sources (batch rows.0 records.now body.now) result) }
{
    let mut t = s;
    let mut from: u32 = 0;
    // Kept: no range has these turns, each goes on by the rows that the slot still takes.
    while t.target.0 - t.buffered.0 < rows.0 - from {
        let n = RowCount(t.target.0 - t.buffered.0);
        let step = try_and_finish(t, books, records, body, sources, from, n);
        if step.number != 0 {
            return step.number;
        }
        t = step.state;
        from += n.0;
    }
    try_and_finish(
        t,
        books,
        records,
        body,
        sources,
        from,
        RowCount(rows.0 - from),
    )
    .number
}

// Finishing on trial, then queueing whole.
fn try_first(s: BatchCoalescer, books: &[u8], records: &[u8]) -> u32
    requires { (Trying s books.now) × (length records.now ≡ 32 * s.columns) }
    ensures { TellsFirst s books.now records.now result }
{
    let step = try_finish(s);
    if step.number == 0 {
        let t = step.state;
        whole::try_whole(t, books, records)
    } else {
        step.number
    }
}

// The whole push on trial: the number of the first step without room, or 0.
fn try_push(
    s: BatchCoalescer,
    books: &mut [u8],
    records: &[u8],
    body: &[u8],
    sources: Sources,
    rows: RowCount,
) -> u32
    requires { (Trying s books.old) × (Triable s sources (batch rows.0 records.now body.now))
        × (s.buffered.0 < s.target.0) }
    ensures { (Tried books.old books.new s.numbers)
        × (Tells s books.old sources (batch rows.0 records.now body.now) result) }
{
    let route = routes::route_of(s, rows);
    match route {
        Route::Coalesce => try_rows(s, books, records, body, sources, rows),
        Route::Whole => whole::try_whole(s, books, records),
        Route::FinishFirst => try_first(s, books, records),
    }
}

// The number of the first step of a push that lacks room, or 0; the books are put back.
pub fn room_refusal(
    s: BatchCoalescer,
    books: &mut [u8],
    records: &[u8],
    body: &[u8],
    sources: Sources,
    rows: RowCount,
) -> u32
    requires { (Pushing s books.old (batch rows.0 records.now body.now)) × (Sourced sources (world s [] [] books.old) (batch rows.0 records.now body.now))
        × (Unmarked books.old) × (OwnBlocks s books.old) }
    ensures { (books.new ≡ books.old)
        × (Answers s books.old (batch rows.0 records.now body.now) result) }
{
    let used = words::get32(books, 0);
    let lacking = try_push(s, books, records, body, sources, rows);
    trial_end::end_trial(books, used);
    lacking
}
