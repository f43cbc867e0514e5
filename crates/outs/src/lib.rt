// The player strip of 02, K6, in lent bytes: who is out on each side, the one out longest first. It knows no coalescer.
#![tactic(auto)]

ghost use Rattle.std.specs.Prelude.{◌≡◌, true, false, [], ◌∷◌, ◌++◌, ◌+◌, ◌*◌, ◌≤◌, ◌<◌, length, drop, MatchOption, None, Some};
ghost use Rattle.words.specs.Word.{word32};
ghost use Rattle.outs.specs.Outs.{among, is_above, refusal_on, refusal_for, changed, accepted, is_name, in_range, side_of, what_of, event_of, given_number, given_took};
ghost use Rattle.outs.specs.Coding.{strip_bytes, side_bytes, side_code, last_code, code_of, name_in, names_in, last_in, strip_of, is_side, is_strip, strip_fault, new_fault, new_leaves, event_answer, event_leaves};
ghost use Rattle.outs.specs.Steps.{is_zero, is_name_at, is_last};
ghost use Rattle.outs.specs.Seen.{seen_side, start_of, seen_what, seen, named};
ghost use Rattle.outs.specs.Answers.{fault_of, refusal_of, not_taken};

mod refusals;

pub use refusals::{NotTaken, Refusal, StripFault, fault_of, refusal_of};

// The bytes of a strip.
pub const STRIP_BYTES: usize = 972;

// The bytes of a side of it.
const SIDE_BYTES: usize = 480;

// ---- tests of bytes

// Whether every byte is zero.
fn is_zero(part: &[u8]) -> bool
    ensures { result ≡ is_zero part.now }
{
    part.iter().all(|b| *b == 0)
}

// ---- bytes that code a strip

// Whether place i of a side holds a name: 1 to 64 bytes, and zeros behind them.
fn is_name_at(side: &[u8], i: usize) -> bool
    requires { (length side.now ≡ side_bytes) × (i < 7) }
    ensures { result ≡ is_name_at side.now i }
{
    let n = words::get32(side, 4 + 68 * i) as usize;
    1 <= n && n <= 64 && is_zero(&side[8 + 68 * i + n..72 + 68 * i])
}

// Whether 480 bytes code a side.
fn is_side(side: &[u8]) -> bool
    requires { length side.now ≡ side_bytes }
    ensures { result ≡ is_side side.now }
{
    let count = words::get32(side, 0) as usize;
    if count <= 7 {
        for i in 0..count {
            if !is_name_at(side, i) {
                return false;
            }
        }
        let from = 4 + 68 * count;
        is_zero(&side[from..])
    } else {
        false
    }
}

// Whether the first 12 bytes code a last number, or none.
fn is_last(strip: &[u8]) -> bool
    requires { length strip.now ≡ strip_bytes }
    ensures { result ≡ is_last strip.now }
{
    let flag = words::get32(strip, 0);
    if flag == 0 {
        is_zero(&strip[4..12])
    } else {
        flag == 1
    }
}

// Whether 972 bytes code a strip.
fn is_strip(strip: &[u8]) -> bool
    requires { length strip.now ≡ strip_bytes }
    ensures { result ≡ is_strip strip.now }
{
    is_last(strip) && is_side(&strip[12..492]) && is_side(&strip[492..972])
}

// Whether the bytes code a strip: else there are other than 972, or what they hold codes none.
pub fn strip_fault(strip: &[u8]) -> Result<(), StripFault>
    ensures { fault_of result ≡ strip_fault strip.now }
{
    if strip.len() == STRIP_BYTES {
        if is_strip(strip) {
            Ok(())
        } else {
            Err(StripFault::NoCode)
        }
    } else {
        Err(StripFault::Length)
    }
}

// ---- a new strip

// The strip before any row, where there are 972 bytes for it; else nothing changed.
pub fn new_strip(strip: &mut [u8]) -> Result<(), StripFault>
    ensures { (fault_of result ≡ new_fault strip.old) × (strip.new ≡ new_leaves strip.old) }
{
    if strip.len() == STRIP_BYTES {
        strip.fill(0);
        Ok(())
    } else {
        Err(StripFault::Length)
    }
}

// ---- an event

// A side.
#[derive(Clone, Copy)]
enum Side {
    One,
    Two,
}

impl Side {
    // The side of a number in range: 1 or 2.
    fn of(number: u8) -> Side
        ensures { seen_side result ≡ side_of number }
    {
        if number == 1 { Side::One } else { Side::Two }
    }

    // Where its bytes stand in a strip.
    fn start(self) -> usize
        ensures at { result ≡ start_of self }
        ensures within { result ≤ 492 }
    {
        match self {
            Side::One => 12,
            Side::Two => 492,
        }
    }
}

// What happens: a player of this name goes out, or the one who has been out longest comes back.
#[derive(Clone, Copy)]
enum What<'a> {
    Out(&'a [u8]),
    Revive,
}

impl<'a> What<'a> {
    // What a number in range says: 1 out, 2 revive.
    fn of(event: u8, name: &'a [u8]) -> What<'a>
        ensures { seen_what result ≡ what_of event name.now }
    {
        if event == 1 {
            What::Out(name)
        } else {
            What::Revive
        }
    }
}

// An event: a row's number, its side, and what happens.
#[derive(Clone, Copy)]
struct Event<'a> {
    number: u64,
    side: Side,
    what: What<'a>,
}

impl<'a> Event<'a> {
    // The event of a row's four values, where they are in range.
    fn of(number: u64, side: u8, event: u8, name: &'a [u8]) -> Option<Event<'a>>
        ensures { MatchOption result (in_range side event name.now ≡ false) (λ e. (in_range side event name.now ≡ true) × (seen e ≡ event_of number side event name.now)) }
    {
        if in_range(side, event, name) {
            let side = Side::of(side);
            let what = What::of(event, name);
            Some(Event { number, side, what })
        } else {
            None
        }
    }
}

// Whether side, event and name are in range.
fn in_range(side: u8, event: u8, name: &[u8]) -> bool
    ensures { result ≡ in_range side event name.now }
{
    let known = ((side == 1) | (side == 2)) & ((event == 1) | (event == 2));
    known & ((1 <= name.len()) & (name.len() <= 64))
}

// ---- what refuses an event

// The last accepted number, where there is one.
pub fn last_number(strip: &[u8]) -> Option<u64>
    requires { 12 ≤ length strip.now }
    ensures { MatchOption result (last_in strip.now ≡ None) (λ n. last_in strip.now ≡ Some n) }
{
    if words::get32(strip, 0) == 0 {
        None
    } else {
        let low = words::get32(strip, 4);
        let high = words::get32(strip, 8);
        Some((low as u64) + (high as u64) * 4294967296)
    }
}

// Whether a number is above the last accepted one.
fn is_above(strip: &[u8], number: u64) -> bool
    requires { length strip.now ≡ strip_bytes }
    ensures { result ≡ is_above (last_in strip.now) number }
{
    match last_number(strip) {
        None => true,
        Some(last) => last < number,
    }
}

// The name at place i of a side.
pub fn name_at(side: &[u8], i: usize) -> &[u8]
    requires { (is_side side.now ≡ true) × (i < word32 side.now 0) }
    ensures { result.now ≡ name_in side.now i }
{
    let n = words::get32(side, 4 + 68 * i) as usize;
    let from = 8 + 68 * i;
    let end = from + n;
    &side[from..end]
}

// Whether a name is out on a side.
fn is_out(side: &[u8], name: &[u8]) -> bool
    requires { (length side.now ≡ side_bytes) × (is_side side.now ≡ true) }
    ensures { result ≡ among name.now (names_in side.now) }
{
    let count = words::get32(side, 0) as usize;
    for i in 0..count {
        if name == name_at(side, i) {
            return true;
        }
    }
    false
}

// What a side says of an event.
fn side_refusal(side: &[u8], what: What<'_>) -> Result<(), Refusal>
    requires { (length side.now ≡ side_bytes) × (is_side side.now ≡ true) }
    ensures { refusal_of result ≡ refusal_on (names_in side.now) (seen_what what.entry) }
{
    let count = words::get32(side, 0);
    match what {
        What::Out(name) => {
            if count < 7 {
                if is_out(side, name) {
                    Err(Refusal::OutAlready)
                } else {
                    Ok(())
                }
            } else {
                Err(Refusal::EighthOut)
            }
        }
        What::Revive => {
            if count == 0 {
                Err(Refusal::NobodyOut)
            } else {
                Ok(())
            }
        }
    }
}

// What the strip says of an event.
fn refusal_for(strip: &[u8], event: Event<'_>) -> Result<(), Refusal>
    requires { (length strip.now ≡ strip_bytes) × (is_strip strip.now ≡ true) }
    ensures { refusal_of result ≡ refusal_for (strip_of strip.now) (seen event.entry) }
{
    let Event { number, side, what } = event;
    if is_above(strip, number) {
        let from = side.start();
        let end = from + SIDE_BYTES;
        side_refusal(&strip[from..end], what)
    } else {
        Err(Refusal::NotAbove)
    }
}

// ---- what an accepted event leaves

// The last accepted number.
fn put_last(strip: &mut [u8], number: u64)
    requires { length strip.old ≡ strip_bytes }
    ensures { strip.new ≡ last_code (Some number) ++ drop 12 strip.old }
{
    words::put32(strip, 0, 1);
    words::put32(strip, 4, (number % 4294967296) as u32);
    words::put32(strip, 8, (number / 4294967296) as u32);
}

// A name goes out: behind the others.
fn go_out(side: &mut [u8], name: &[u8])
    requires { (length side.old ≡ side_bytes) × (is_side side.old ≡ true) × (word32 side.old 0 < 7) × (is_name name.now ≡ true) }
    ensures { side.new ≡ side_code (names_in side.old ++ (name.now ∷ [])) }
{
    let count = words::get32(side, 0);
    let at = 4 + 68 * (count as usize);
    words::put32(side, 0, count + 1);
    words::put32(side, at, name.len() as u32);
    words::put_bytes(side, at + 4, name);
}

// The one who has been out longest comes back: every name one place down, over the first.
fn come_back(side: &mut [u8])
    requires { (length side.old ≡ side_bytes) × (is_side side.old ≡ true) × (1 ≤ word32 side.old 0) }
    ensures { side.new ≡ side_code (drop 1 (names_in side.old)) }
{
    let count = words::get32(side, 0);
    words::put32(side, 0, count - 1);
    side.copy_within(72..480, 4);
    side[412..].fill(0);
}

// A side after an event that it accepts.
fn change_side(side: &mut [u8], what: What<'_>)
    requires { (length side.old ≡ side_bytes) × (is_side side.old ≡ true) × (named (seen_what what) ≡ true) × (refusal_on (names_in side.old) (seen_what what) ≡ 0) }
    ensures { side.new ≡ side_code (changed (names_in side.old) (seen_what what.entry)) }
{
    match what {
        What::Out(name) => go_out(side, name),
        What::Revive => come_back(side),
    }
}

// The strip after an event that it accepts.
fn accept(strip: &mut [u8], event: Event<'_>)
    requires { (length strip.old ≡ strip_bytes) × (is_strip strip.old ≡ true) × (named (seen event).what ≡ true) × (refusal_for (strip_of strip.old) (seen event) ≡ 0) }
    ensures { strip.new ≡ code_of (accepted (strip_of strip.old) (seen event.entry)) }
{
    let Event { number, side, what } = event;
    let from = side.start();
    let end = from + SIDE_BYTES;
    change_side(&mut strip[from..end], what);
    put_last(strip, number);
}

// ---- a row's four values

// An event taken, or refused and nothing changed, in bytes that code a strip: a caller tests them once and takes many.
pub fn take_coded(
    strip: &mut [u8],
    number: u64,
    side: u8,
    event: u8,
    name: &[u8],
) -> Result<(), Refusal>
    requires { is_strip strip.old ≡ true }
    ensures { (refusal_of result ≡ given_number (strip_of strip.old) number side event name.now) × (strip.new ≡ code_of (given_took (strip_of strip.old) number side event name.now)) }
{
    let Some(event) = Event::of(number, side, event, name) else {
        return Err(Refusal::OutOfRange);
    };
    refusal_for(strip, event)?;
    accept(strip, event);
    Ok(())
}

// The same in any bytes: those that code no strip take none, and nothing changed.
pub fn take_event(
    strip: &mut [u8],
    number: u64,
    side: u8,
    event: u8,
    name: &[u8],
) -> Result<(), NotTaken>
    ensures { (not_taken result ≡ event_answer strip.old number side event name.now) × (strip.new ≡ event_leaves strip.old number side event name.now) }
{
    strip_fault(strip)?;
    take_coded(strip, number, side, event, name)?;
    Ok(())
}
