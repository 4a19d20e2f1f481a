// Why a call is turned down: the table of document 01 ("Turned down, by example") and what document 02 adds to it. A call that can be turned down answers a
// `Result` with a `Refusal`; the C calls give its number.
#![tactic(auto)]

ghost use Rattle.std.specs.Prelude.{◌≡◌};
ghost use Rattle.refusals.specs.Numbers.{number, mark, number_of, mark_of};

// The conditions in the order of their numbers.
#[derive(Clone, Copy, Debug, PartialEq, Eq)]
pub enum Refusal {
    KeyLength,
    NonceLength,
    // of a secret number, a stamp or a site mark
    SecretLength,
    DataTooLong,
    OutputTooShort,
    SealedTooShort,
    // with the mark of the reader: 0 for the closing seal, else the shot number. The cipher's own calls give 0
    TagDiffers(u16),
    NotSound,
    BurstFull,
    PictureLength,
    BufferTooShort,
    FrontBroken,
    NoSuchPlace,
    StripState,
    // 02, N1
    NoCameraNumber,
    // 02, N2
    ShotCount,
    // 02, N9
    LogLength,
    // 02, N10
    TooManyRounds,
}

impl Refusal {
    // Its number in the table.
    pub fn number(self) -> u32
        ensures { result ≡ number self }
    {
        match self {
            Refusal::KeyLength => 1,
            Refusal::NonceLength => 2,
            Refusal::SecretLength => 3,
            Refusal::DataTooLong => 4,
            Refusal::OutputTooShort => 5,
            Refusal::SealedTooShort => 6,
            Refusal::TagDiffers(_) => 7,
            Refusal::NotSound => 8,
            Refusal::BurstFull => 9,
            Refusal::PictureLength => 10,
            Refusal::BufferTooShort => 11,
            Refusal::FrontBroken => 12,
            Refusal::NoSuchPlace => 13,
            Refusal::StripState => 14,
            Refusal::NoCameraNumber => 15,
            Refusal::ShotCount => 16,
            Refusal::LogLength => 19,
            Refusal::TooManyRounds => 20,
        }
    }

    // "With it goes a mark, 0 except under 7" (01).
    pub fn mark(self) -> u32
        ensures { result ≡ mark self }
    {
        match self {
            Refusal::TagDiffers(shot) => u32::from(shot),
            _ => 0,
        }
    }
}

// The number of what a call answered, 0 when done.
pub fn number_of<T>(answer: &Result<T, Refusal>) -> u32
    ensures { result ≡ number_of answer.now }
{
    match answer {
        Ok(_) => 0,
        Err(refusal) => refusal.number(),
    }
}

// Its mark, 0 when done.
pub fn mark_of<T>(answer: &Result<T, Refusal>) -> u32
    ensures { result ≡ mark_of answer.now }
{
    match answer {
        Ok(_) => 0,
        Err(refusal) => refusal.mark(),
    }
}
