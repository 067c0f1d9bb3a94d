// Why a call or a helper is refused: one reason of document 01 each, with its number there.
#![tactic(auto)]

ghost use Rattle.std.specs.Prelude.{◌≡◌};
ghost use Rattle.refusal.specs.Number.{number_of};

#[derive(Clone, Copy, Debug, PartialEq, Eq)]
pub enum Refusal {
    Sizes = 1,
    NotWellFormed = 2,
    NoRoot = 3,
    SameRoot = 4,
    LongSource = 5,
    TooHigh = 6,
    NotAligned = 7,
    Permissions = 8,
    FrameTooHigh = 9,
    HeldWindow = 10,
    NotMapped = 11,
    NotUser = 12,
    OnlyValid = 13,
    MappedAlready = 14,
    NoPoolFrame = 15,
    TooFewFrames = 16,
    TooFewTables = 17,
    PageLeft = 18,
}

impl Refusal {
    pub fn number(self) -> u64
        ensures { result ≡ number_of self }
    {
        self as u64
    }
}
