// What is told of the calls on the strip. An error is one of standard output.
use answers::{Answer, Counts, part, word_at};
use std::{fmt, io};
use telling::{Hex, Told};

// A read or a take: its answer, and where it was not refused the number of each row and the strip.
#[derive(Clone, Copy)]
pub struct Rows<'a> {
    pub name: &'static str,
    pub answer: Answer,
    pub counts: Counts,
    pub strip: &'a [u8],
    pub numbers: &'a [u8],
}

impl fmt::Display for Rows<'_> {
    fn fmt<W: fmt::Write>(&self, f: &mut fmt::Formatter<W>) -> fmt::Result {
        let rows = self.answer.unwrap_or(0);
        write!(
            f,
            "{}{}, rows {rows}, {}",
            self.name,
            Told(self.answer),
            self.counts
        )?;
        if self.answer.is_err() {
            return Ok(());
        }
        f.write_str("\n  numbers")?;
        for number in part(self.numbers, 0, rows as usize) {
            write!(f, " {number}")?;
        }
        match last(self.strip) {
            Some(number) => write!(f, "\n  last {number}")?,
            None => f.write_str("\n  last -")?,
        }
        write!(f, "\n  side 1:{}", Side(part(self.strip, 12, 480)))?;
        write!(f, "\n  side 2:{}", Side(part(self.strip, 492, 480)))
    }
}

// The last accepted number.
fn last(strip: &[u8]) -> Option<u64> {
    match word_at(strip, 0) {
        0 => None,
        _ => Some(u64::from(word_at(strip, 4)) + u64::from(word_at(strip, 8)) * 4294967296),
    }
}

// Who is out on a side, the one out longest first.
#[derive(Clone, Copy)]
struct Side<'a>(&'a [u8]);

impl fmt::Display for Side<'_> {
    fn fmt<W: fmt::Write>(&self, f: &mut fmt::Formatter<W>) -> fmt::Result {
        for i in 0..word_at(self.0, 0).min(7) as usize {
            let size = word_at(self.0, 4 + 68 * i) as usize;
            write!(f, " {}", Hex(part(self.0, 8 + 68 * i, size)))?;
        }
        Ok(())
    }
}

// Bytes of the strip, or none where they are not all there.
pub fn show_bytes(rt: &impl Print, strip: &[u8], place: u32, count: u32) -> io::Result<()> {
    let bytes = part(strip, place as usize, count as usize);
    println!(rt; "strip at {place}: {}", Hex(bytes))
}
