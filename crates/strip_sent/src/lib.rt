// The exported functions of the strip, each beside what the theorems say of it: a function here makes one call of the C layer, and promises the step that a
// history with a strip is made of (strip_story/specs/SentStrip.antt). So a promise that says less than the theorems use is refused here.
#![tactic(auto)]

ghost use Rattle.capi.specs.Api.{memory};
ghost use Rattle.strip_story.specs.SentStrip.{SentStrip, SentRead, SentTake};

pub fn new_strip(strip: &mut [u8]) -> u32
    ensures { SentStrip strip.old result strip.new }
{
    capi_strip::pw_strip_new(strip)
}

pub fn read_batch(
    state: &[u8],
    slots: &[u8],
    pool: &[u8],
    books: &[u8],
    strip: &mut [u8],
    numbers: &mut [u8],
) -> u64
    ensures { SentRead (memory state.now slots.now pool.now books.now) strip.old numbers.old result
        strip.new numbers.new }
{
    capi_strip::pw_strip_read(state, slots, pool, books, strip, numbers)
}

pub fn take_batch(
    state: &mut [u8],
    slots: &[u8],
    pool: &[u8],
    books: &mut [u8],
    strip: &mut [u8],
    numbers: &mut [u8],
) -> u64
    ensures { SentTake (memory state.old slots.now pool.now books.old) strip.old numbers.old result
        (memory state.new slots.now pool.now books.new) strip.new numbers.new }
{
    capi_strip::pw_strip_take(state, slots, pool, books, strip, numbers)
}
