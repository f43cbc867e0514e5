// The calls that the program knows: those on the coalescer, and those on the strip.
use capture::{Header, Wrong};

// A call and its numbers.
#[derive(Clone, Copy, Debug, PartialEq, Eq)]
pub enum Call {
    Coalescer(capture::Call),
    New,
    Read,
    Take,
    Lend { strip: u32, numbers: u32 },
    ShowBytes { place: u32, count: u32 },
    Overwrite { place: u32, word: u32 },
}

impl TryFrom<Header> for Call {
    type Error = Wrong;

    fn try_from(header: Header) -> Result<Call, Wrong> {
        let [a, b, ..] = header.numbers;
        Ok(match header.what {
            15 => Call::New,
            16 => Call::Read,
            17 => Call::Take,
            18 => Call::Lend {
                strip: a,
                numbers: b,
            },
            19 => Call::ShowBytes { place: a, count: b },
            20 => Call::Overwrite { place: a, word: b },
            _ => Call::Coalescer(capture::Call::try_from(header)?),
        })
    }
}
