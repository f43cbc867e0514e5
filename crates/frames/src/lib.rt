// What a frame of the player strip shows, laid into lent bytes: two sides, who is out and who comes back next, refused rows.
#![tactic(auto)]

ghost use Rattle.std.specs.Prelude.{◌≡◌, true, ◌+◌, ◌*◌, ◌≤◌, ◌<◌, length};
ghost use Rattle.words.specs.Run.{read, put};
ghost use Rattle.outs.specs.Coding.{is_side, is_strip, last_in, names_in, strip_of};
ghost use Rattle.frames.specs.Text.{decimal, shown as shownBehind, shown_name};
ghost use Rattle.frames.specs.Frame.{last_text, head_text, title_text, mark_text, player_text, place_text, places_text, side_text, reason_text, which_text, why_text, row_text, rows_text, strip_text};
ghost use Rattle.frames.specs.Laid.{Laid};
ghost use Rattle.frames.specs.FrameCall.{has_room, frame_answer, frame_leaves};

// The bytes that the text of a strip may take, and the line of a row.
pub const STRIP_TEXT: usize = 1221;

pub const ROW_TEXT: usize = 129;

// ---- bytes that a screen may have

// A byte as it is shown behind another that is shown: `?` for a control byte. One is below 32, 127, or from 128 to 159 where it stands by itself or
// behind 194, as UTF-8 has the controls from 128 to 159; in any other place such a byte is the rest of a letter.
pub fn shown(before: u8, b: u8) -> u8
    ensures { result ≡ shownBehind before b }
{
    match b {
        0..=31 | 127 => b'?',
        128..=159 if before < 128 || before == 194 => b'?',
        _ => b,
    }
}

// A name as it is shown, at the front of a lent part.
fn show_into(part: &mut [u8], name: &[u8])
    requires { length name.now ≤ length part.old }
    ensures { part.new ≡ put 0 (shown_name name.now) part.old }
{
    let mut before: u8 = b' ';
    for (i, raw) in name.iter().enumerate() {
        before = shown(before, *raw);
        part[i] = before;
    }
}

// ---- a text laid at a place; the place behind it
// Kept: `out` and `at` side by side: `Laid` speaks of both in turn, and a cursor holding a `&mut` would say the same of its fields.

// A name as it is shown.
fn put_name(out: &mut [u8], at: usize, name: &[u8]) -> usize
    requires { (length name.now ≤ 64) × (at + 64 ≤ length out.old) }
    ensures { Laid 64 at (shown_name name.now) out.old out.new result }
{
    show_into(&mut out[at..], name);
    at + name.len()
}

// Words.
fn put_text(out: &mut [u8], at: usize, part: &[u8]) -> usize
    requires { at + length part.now ≤ length out.old }
    ensures { Laid (length part.now) at part.now out.old out.new result }
{
    words::put_bytes(out, at, part);
    at + part.len()
}

// The first k of 20 digits.
fn put_digits(out: &mut [u8], at: usize, digits: &[u8; 20], k: usize)
    requires { (k ≤ 20) × (at + k ≤ length out.old) }
    ensures { out.new ≡ put at (read 0 k digits.now) out.old }
{
    words::put_part(out, at, digits, 0, k);
}

// A number in decimal.
fn put_number(out: &mut [u8], at: usize, n: u64) -> usize
    requires { at + 20 ≤ length out.old }
    ensures { Laid 20 at (decimal n) out.old out.new result }
{
    let mut digits = [0u8; 20];
    let k = io::decimal(n, &mut digits);
    put_digits(out, at, &digits, k);
    at + k
}

// ---- the first line

// The last accepted number, or `none`.
fn put_last(out: &mut [u8], at: usize, strip: &[u8]) -> usize
    requires { (12 ≤ length strip.now) × (at + 20 ≤ length out.old) }
    ensures { Laid 20 at (last_text (last_in strip.now)) out.old out.new result }
{
    match outs::last_number(strip) {
        None => put_text(out, at, b"none"),
        Some(number) => put_number(out, at, number),
    }
}

// The last accepted number, and how many rows wait.
fn put_head(out: &mut [u8], strip: &[u8], waiting: u32) -> usize
    requires { (12 ≤ length strip.now) × (65 ≤ length out.old) }
    ensures { Laid 65 0 (head_text (last_in strip.now) waiting) out.old out.new result }
{
    let a = put_text(out, 0, b"last row ");
    let b = put_last(out, a, strip);
    let c = put_text(out, b, b", rows waiting ");
    let d = put_number(out, c, waiting as u64);
    put_text(out, d, b"\n")
}

// ---- a side

// The side, and how many of it are out.
fn put_title(out: &mut [u8], at: usize, label: &[u8], n: u32) -> usize
    requires { (length label.now ≡ 5) × (at + 32 ≤ length out.old) }
    ensures { Laid 32 at (title_text label.now n) out.old out.new result }
{
    let a = put_text(out, at, label);
    let b = put_number(out, a, n as u64);
    put_text(out, b, b"/7 out\n")
}

// What stands before the name at place i: who comes back next is marked.
fn put_mark(out: &mut [u8], at: usize, i: usize) -> usize
    requires { at + 13 ≤ length out.old }
    ensures { Laid 13 at (mark_text i) out.old out.new result }
{
    if i == 0 {
        put_text(out, at, b"  next back  ")
    } else {
        put_text(out, at, b"             ")
    }
}

// The player at place i.
fn put_player(out: &mut [u8], at: usize, i: usize, name: &[u8]) -> usize
    requires { (length name.now ≤ 64) × (at + 78 ≤ length out.old) }
    ensures { Laid 78 at (player_text i name.now) out.old out.new result }
{
    let a = put_mark(out, at, i);
    let b = put_name(out, a, name);
    put_text(out, b, b"\n")
}

// Place i: its player, or nobody.
fn put_place(out: &mut [u8], at: usize, side: &[u8], i: usize) -> usize
    requires { (is_side side.now ≡ true) × (at + 78 ≤ length out.old) }
    ensures { Laid 78 at (place_text (names_in side.now) i) out.old out.new result }
{
    let count = words::get32(side, 0) as usize;
    if i < count {
        put_player(out, at, i, outs::name_at(side, i))
    } else {
        put_text(out, at, b"             -\n")
    }
}

// The seven places.
fn put_places(out: &mut [u8], at: usize, side: &[u8]) -> usize
    requires { (is_side side.now ≡ true) × (at + 546 ≤ length out.old) }
    ensures { Laid 546 at (places_text (names_in side.now) 7) out.old out.new result }
{
    let mut place = at;
    for i in 0..7 {
        place = put_place(out, place, side, i);
    }
    place
}

// A side: its title and its places.
fn put_side(out: &mut [u8], at: usize, label: &[u8], side: &[u8]) -> usize
    requires { (is_side side.now ≡ true) × (length label.now ≡ 5) × (at + 578 ≤ length out.old) }
    ensures { Laid 578 at (side_text label.now (names_in side.now)) out.old out.new result }
{
    let n = words::get32(side, 0);
    let a = put_title(out, at, label, n);
    put_places(out, a, side)
}

// The first line and both sides.
fn put_strip(out: &mut [u8], strip: &[u8], waiting: u32) -> usize
    requires { (is_strip strip.now ≡ true) × (1221 ≤ length out.old) }
    ensures { Laid 1221 0 (strip_text (strip_of strip.now) waiting) out.old out.new result }
{
    let a = put_head(out, strip, waiting);
    let b = put_side(out, a, b"home ", &strip[12..492]);
    put_side(out, b, b"away ", &strip[492..972])
}

// ---- refused rows

// Which row of the batch, counted from 1, of how many.
fn put_which(out: &mut [u8], at: usize, i: usize, rows: usize) -> usize
    requires { (i < rows) × (at + 48 ≤ length out.old) }
    ensures { Laid 48 at (which_text i rows) out.old out.new result }
{
    let a = put_text(out, at, b"row ");
    let b = put_number(out, a, (i + 1) as u64);
    let c = put_text(out, b, b" of ");
    put_number(out, c, rows as u64)
}

// What a number says.
fn reason(number: u8) -> &'static [u8]
    ensures text { result.now ≡ reason_text number }
    ensures within { length result.now ≤ 48 }
{
    match number {
        31 => b"side, event, number or name null or out of range",
        32 => b"row number not above the last accepted row's",
        33 => b"an eighth out",
        34 => b"revive with nobody out",
        35 => b"a name already out on that side",
        _ => b"not accepted",
    }
}

// The number that refused a row, and what it says.
fn put_why(out: &mut [u8], at: usize, number: u8) -> usize
    requires { at + 81 ≤ length out.old }
    ensures { Laid 81 at (why_text number) out.old out.new result }
{
    let a = put_text(out, at, b" refused, ");
    let b = put_number(out, a, number as u64);
    let c = put_text(out, b, b": ");
    let d = put_text(out, c, reason(number));
    put_text(out, d, b"\n")
}

// The line of row i: none where it was accepted.
fn put_row(out: &mut [u8], at: usize, numbers: &[u8], i: usize) -> usize
    requires { (i < length numbers.now) × (at + 129 ≤ length out.old) }
    ensures { Laid 129 at (row_text numbers.now i) out.old out.new result }
{
    let number = numbers[i];
    if number == 0 {
        at
    } else {
        let a = put_which(out, at, i, numbers.len());
        put_why(out, a, number)
    }
}

// The lines of all rows.
fn put_rows(out: &mut [u8], at: usize, numbers: &[u8]) -> usize
    requires { at + 129 * length numbers.now ≤ length out.old }
    ensures { Laid (129 * length numbers.now) at (rows_text numbers.now (length numbers.now)) out.old out.new result }
{
    let mut place = at;
    for i in 0..numbers.len() {
        place = put_row(out, place, numbers, i);
    }
    place
}

// ---- the frame

// Whether so many bytes are room for the frame of a batch of so many rows.
fn has_room(size: usize, rows: usize) -> bool
    ensures { result ≡ has_room size rows }
{
    STRIP_TEXT <= size && rows <= (size - STRIP_TEXT) / ROW_TEXT
}

// The frame of a strip at the front of `out`: how many rows wait, and the number of each row of the batch; how many bytes it has. Where the bytes
// code no strip, or `out` has no room for any such frame: 0, and nothing is written.
pub fn frame(strip: &[u8], waiting: u32, numbers: &[u8], out: &mut [u8]) -> usize
    ensures { (result ≡ frame_answer strip.now waiting numbers.now out.old) × (out.new ≡ frame_leaves strip.now waiting numbers.now out.old) }
{
    if has_room(out.len(), numbers.len()) {
        match outs::strip_fault(strip) {
            Ok(()) => {
                let a = put_strip(out, strip, waiting);
                put_rows(out, a, numbers)
            }
            Err(_) => 0,
        }
    } else {
        0
    }
}
