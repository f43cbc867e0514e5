// Why a call on a strip changes nothing, and the numbers of 01 and 02 for it.
ghost use Rattle.std.specs.Prelude.{◌≡◌};
ghost use Rattle.outs.specs.Answers.{fault_number, refusal_number, fault_of, refusal_of};
ghost use Rattle.outs.specs.declared.refusals.NotTaken.TheVariants.{Fault, Refused};

// Why bytes are no strip: how many there are, or what they hold.
#[derive(Clone, Copy)]
pub enum StripFault {
    Length,
    NoCode,
}

impl StripFault {
    // Its number: 1 or 14.
    pub fn number(self) -> u32
        ensures { result ≡ fault_number self }
    {
        match self {
            StripFault::Length => 1,
            StripFault::NoCode => 14,
        }
    }
}

// Why an event is refused.
#[derive(Clone, Copy)]
pub enum Refusal {
    OutOfRange,
    NotAbove,
    EighthOut,
    NobodyOut,
    OutAlready,
}

impl Refusal {
    // Its number: 31 to 35.
    pub fn number(self) -> u8
        ensures { result ≡ refusal_number self }
    {
        match self {
            Refusal::OutOfRange => 31,
            Refusal::NotAbove => 32,
            Refusal::EighthOut => 33,
            Refusal::NobodyOut => 34,
            Refusal::OutAlready => 35,
        }
    }
}

// Why an event in any bytes is not taken.
#[derive(Clone, Copy)]
pub enum NotTaken {
    Fault(StripFault),
    Refused(Refusal),
}

impl From<StripFault> for NotTaken {
    ghost from_gives = { λ f r. r ≡ Fault f };

    fn from(fault: StripFault) -> NotTaken {
        NotTaken::Fault(fault)
    }
}

impl From<Refusal> for NotTaken {
    ghost from_gives = { λ f r. r ≡ Refused f };

    fn from(refusal: Refusal) -> NotTaken {
        NotTaken::Refused(refusal)
    }
}

// What a test of a strip, or a new one, answers as a number: 0, or the fault's.
pub fn fault_of(answer: Result<(), StripFault>) -> u32
    ensures { result ≡ fault_of answer }
{
    match answer {
        Ok(()) => 0,
        Err(fault) => fault.number(),
    }
}

// What an event answers as a number: 0, or the refusal's.
pub fn refusal_of(answer: Result<(), Refusal>) -> u8
    ensures { result ≡ refusal_of answer }
{
    match answer {
        Ok(()) => 0,
        Err(refusal) => refusal.number(),
    }
}
