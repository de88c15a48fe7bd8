// Why a word is refused.
ghost use Rattle.std.specs.Prelude.{◌≡◌};
ghost use Rattle.words.specs.Fault.{number};

// The causes, by the numbers that refusals give.
#[derive(Clone, Copy, PartialEq, Eq)]
pub enum Fault {
    Malformed = 1,
    LineCount = 2,
    NoSuchOutput = 3,
    SlotLimit = 4,
    NotWaiting = 5,
    SharedOutput = 6,
    Unstable = 7,
}

impl From<Fault> for u8 {
    ghost from_gives = { λ fault n. n ≡ number fault };

    fn from(fault: Fault) -> u8 {
        fault as u8
    }
}
