// The refusals of document 01, "Refusal numbers", and of document 02.
#![tactic(auto)]

ghost use Rattle.std.specs.Prelude.{◌≡◌};
ghost use Rattle.refusal.specs.Numbers.{number};

// What is answered where nothing is refused.
pub const SOUND: u8 = 0;

// Each refusal with its number; specs/Numbers.antt has the documents' words for each.
#[derive(Clone, Copy, Debug, PartialEq, Eq)]
pub enum Refusal {
    FieldEmpty = 1,
    FieldTooLong = 2,
    HeaderCut = 3,
    CidReserved = 4,
    SpareBitSet = 5,
    LengthPastField = 6,
    LastWithLength = 7,
    TooManySubFrames = 8,
    HexMalformed = 9,
    NotProvisioned = 11,
    TypeNotAllowed = 12,
    LengthWrong = 13,
    ReservedCode = 14,
    ValueOutOfRange = 15,
    CodingTypeUnknown = 16,
    EdgeWithoutChange = 17,
    StateNotAllowed = 18,
    OlderPayload = 19,
    RoomTooSmall = 21,
    TooLongNotLast = 22,
    FrameFull = 23,
    AlreadyLast = 24,
    LineMalformed = 31,
    ValueNotListed = 32,
    CidNotRising = 33,
    TextTooLong = 34,
    NoModulation = 41,
    AgainstModulation = 42,
    SizeOutOfRange = 43,
    FragmentOutOfPlace = 44,
    CodingNotConverted = 45,
    RunTooLong = 46,
    NothingKept = 47,
    SyntaxOutsideProfile = 48,
    MOutsideProfile = 49,
}

impl Refusal {
    // The documents' number of a refusal.
    pub fn number(self) -> u8
        ensures { result ≡ number self }
    {
        self as u8
    }
}
