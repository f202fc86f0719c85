// The refusals of documents 01 and 02, in the order of their numbers from 1 on.
ghost use Rattle.std.specs.Prelude.{◌≡◌};
ghost use Rattle.event.specs.Refusal.{refusal_number, number};

#[derive(Clone, Copy, Debug, PartialEq, Eq)]
pub enum Refusal {
    // Whoever wrote the file.
    NoSuchKind = 1,
    UnnamedBit = 2,
    OutOfRange = 3,
    // The pupil.
    KeyNotOn = 4,
    AlreadyHeld = 5,
    KeyWhileMoving = 6,
    PositionSkipped = 7,
    OtherLeverOut = 8,
    OtherPedalDown = 9,
    ButtonIn = 10,
    ButtonWhileBackward = 11,
    ButtonWhileGas = 12,
    AboveLimit = 13,
    // The radar.
    RadarNotReady = 14,
    ReadyBit = 15,
    // The clock.
    ClockAtEnd = 16,
    // Whoever calls.
    Settings = 17,
    NotAccepted = 18,
    ShortAnswers = 19,
    ShortRecord = 20,
    CutWord = 21,
    // The scene engine.
    BadFloat = 22,
    TooFast = 23,
    // Whoever wrote the file while 3.0 seconds could be chosen.
    GapWithdrawn = 24,
    // Whoever asks for moves of the lever.
    NotReadyToMove = 25,
    OutOfReach = 26,
}

impl From<Refusal> for u32 {
    ghost from_gives = { λ r n. n ≡ refusal_number r };

    fn from(refusal: Refusal) -> u32 {
        refusal as u32
    }
}

// The number of what was refused, 0 for none: what C is told.
pub fn number<T>(outcome: &Result<T, Refusal>) -> u32
    ensures { result ≡ number outcome.now }
{
    match outcome {
        Ok(_) => 0,
        Err(refusal) => u32::from(*refusal),
    }
}
