// A frame on standard output: in place where that is a terminal, else one behind the other. An error is one of
// standard output.
use answers::part;
use capture::Call;
use std::io;

// A frame: the strip, how many rows wait, and a line for each row of the batch that was refused.
pub fn show(
    rt: &impl Print,
    in_place: bool,
    strip: &[u8],
    waiting: u32,
    numbers: &[u8],
    text: &mut [u8],
) -> io::Result<()> {
    if in_place {
        print!(rt; "\x1b[H\x1b[J")?;
    }
    let size = frames::frame(strip, waiting, numbers, text);
    rt.write_all(part(text, 0, size))?;
    println!(rt)
}

// What the box does by a call, where it was refused.
pub fn name(call: Call) -> &'static str {
    match call {
        Call::SetUp(_) => "the box sets up",
        Call::Register { .. } => "the box registers a buffer",
        Call::LetGo { .. } => "the box lets a buffer go",
        Call::Push { .. } => "the box sends rows",
        Call::Finish => "the match ends",
        _ => "the box sets the limit",
    }
}
