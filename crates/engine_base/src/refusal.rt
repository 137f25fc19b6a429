// What is refused, and the number of each refusal.
ghost use Rattle.std.specs.Prelude.{◌≡◌};
ghost use Rattle.engine_base.specs.Refusal.{number_of};

#[derive(Clone, Copy, PartialEq, Eq)]
pub enum Refusal {
    WrongSize = 1,
    TableOutside = 2,
    NoTrack = 3,
    HeaderOutside = 4,
    WindowTooHigh = 5,
    EnvelopeTooHigh = 6,
    NoEnvelopeEnd = 7,
    ChannelOutside = 8,
    NoChannel = 9,
    InvalidCommand = 10,
    InvalidNote = 11,
    PastLengths = 12,
    ZeroLength = 13,
    NoLength = 14,
    PastData = 15,
    InvalidRecord = 16,
    InvalidWord = 17,
    NoRoom = 18,
    OddTranspose = 19,
    BadPlaylist = 20,
    TooManyCommands = 21,
    NoNote = 22,
    WrongDataSize = 23,
}

impl Refusal {
    // Casts stay here: they narrow what is known to fit, have no `From`, or `From` would want its equation cited in each proof.
    pub fn number(self) -> u32
        ensures { result ≡ number_of self }
    {
        self as u32
    }
}
