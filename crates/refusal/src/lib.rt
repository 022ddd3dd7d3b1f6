// Why a call says no: the refusals of documents 01 and 02, with their numbers.

#![tactic(auto)]

ghost use Rattle.std.specs.Prelude.{◌≡◌};
ghost use Rattle.refusal.specs.Number.{number, number_of, refuse};

use std::error::Error;
use std::fmt;

// What turns a call away. 20 to 27 are of requests to come.
#[derive(Clone, Copy, Debug, PartialEq, Eq)]
pub enum Refusal {
    // from the input
    BookShort = 1,
    BookSize = 2,
    BookLength = 3,
    BookCoefficient = 4,
    BookFirstImpulse = 5,
    BookDifference = 6,
    BookSum = 7,
    SamplesOrTop = 8,
    StoreShort = 9,
    Rate = 10,
    Count = 11,
    Position = 12,
    // from the state
    VoiceLevel = 13,
    VoiceFade = 14,
    VoiceRate = 15,
    VoicePosition = 16,
    VoiceHistory = 17,
    // from a store's header, and beside a voice
    StoreLevelLength = 18,
    VoiceTop = 19,
    // of a voice that crosses as words
    VoiceLength = 28,
}

impl Refusal {
    // The documents' number.
    pub fn number(self) -> u32
        ensures { result ≡ number self }
    {
        self as u32
    }

    // The refusal where its condition holds, for a `?` to hand on.
    #[tactic(auto, unfolding(crate::specs::Number::refuse))]
    pub fn when(self, condition: bool) -> Result<(), Refusal>
        ensures { number_of result ≡ refuse (number self) condition }
    {
        if condition { Err(self) } else { Ok(()) }
    }
}

impl From<Refusal> for u32 {
    ghost from_gives = { λ r n. n ≡ number r };

    fn from(refusal: Refusal) -> u32 {
        refusal.number()
    }
}

impl fmt::Display for Refusal {
    fn fmt<W: fmt::Write>(&self, f: &mut fmt::Formatter<W>) -> fmt::Result {
        write!(f, "{}", self.number())
    }
}

impl Error for Refusal {}

// The number of an answer, 0 where it is none: what C is told.
pub fn number_of<T>(answer: &Result<T, Refusal>) -> u32
    ensures { result ≡ number_of answer.now }
{
    match answer {
        Ok(_) => 0,
        Err(refusal) => refusal.number(),
    }
}
