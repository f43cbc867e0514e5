// The C layer, the player strip. docs/HOST.md has each signature; specs/StripApi.antt says what each answers and leaves, on any bytes.
#![tactic(auto)]

ghost use Rattle.std.specs.Prelude.{◌≡◌};
ghost use Rattle.outs.specs.Coding.{new_fault, new_leaves};
ghost use Rattle.capi.specs.Api.{memory, told};
ghost use Rattle.capi_strip.specs.StripApi.{strip_said, strip_read, taken_said, strip_taken};

// The empty strip in 972 bytes; 1, and nothing changed, where there are not 972.
pub fn pw_strip_new(strip: &mut [u8]) -> u32
    ensures { told result strip.new ≡ told (new_fault strip.old) (new_leaves strip.old) }
{
    outs::fault_of(outs::new_strip(strip))
}

// The front batch read into the strip, and left where it is: the refusal in the upper 32 bits, and the rows read in the lower; in `numbers` one
// byte a row, 0 or 31 to 35.
pub fn pw_strip_read(
    state: &[u8],
    slots: &[u8],
    pool: &[u8],
    books: &[u8],
    strip: &mut [u8],
    numbers: &mut [u8],
) -> u64
    ensures { strip_said result strip.new numbers.new
        ≡ strip_read (memory state.now slots.now pool.now books.now) strip.old numbers.old }
{
    let coded = decoding::decode(state);
    if coded.number == 0 {
        let s = coded.state;
        let read = player_strip::read_batch(s, slots, pool, books, strip, numbers);
        crossing::both(read.number, read.rows.0)
    } else {
        let refusal = capi::uncoded(coded, slots.len(), pool.len(), books.len());
        crossing::both(refusal, 0)
    }
}

// The front batch taken into the strip: read, then dropped, in one call. Answers as a read does; a refusal changes nothing.
pub fn pw_strip_take(
    state: &mut [u8],
    slots: &[u8],
    pool: &[u8],
    books: &mut [u8],
    strip: &mut [u8],
    numbers: &mut [u8],
) -> u64
    ensures { taken_said result (memory state.new slots.now pool.now books.new) strip.new numbers.new
        ≡ strip_taken (memory state.old slots.now pool.now books.old) strip.old numbers.old }
{
    let coded = decoding::decode(state);
    if coded.number == 0 {
        let s = coded.state;
        let taken = player_strip::take_batch(s, slots, pool, books, strip, numbers);
        let t = taken.state;
        let refusal = crossing::keep(state, taken.number, t);
        crossing::both(refusal, taken.rows.0)
    } else {
        let refusal = capi::uncoded(coded, slots.len(), pool.len(), books.len());
        crossing::both(refusal, 0)
    }
}
