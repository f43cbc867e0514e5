// Bytes from outside, as a screen may have them.
use std::io;

// Bytes with `?` for each control byte. An error is one of standard output.
pub fn show(rt: &impl Print, text: &[u8]) -> io::Result<()> {
    let mut before: u8 = 0;
    // Kept: a formatter takes text, and these bytes need not be any.
    for b in text {
        before = frames::shown(before, *b);
        rt.write_all(&[before])?;
    }
    Ok(())
}
