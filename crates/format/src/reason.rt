// Why a call is refused, by name, and where: what functions inside the library answer in place of a number. `Refusal` has the same for callers in C.
ghost use Rattle.std.specs.Prelude.{◌≡◌};
ghost use Rattle.format.specs.declared.Refusal.{Refusal};
ghost use Rattle.format.specs.Refusals.{at_line};
ghost use Rattle.format.specs.Reasons.{reason_number, refusal_of, without_line};

use crate::Refusal;

// The reasons, each with its number of refusal.
#[derive(Clone, Copy, PartialEq, Eq)]
pub enum Reason {
    FileTooLong = 1,
    NoMagic = 2,
    HeaderTooLong = 3,
    TooManyLines = 4,
    BadByte = 5,
    NoMark = 6,
    UnknownField = 7,
    NotInVersion = 8,
    RepeatedField = 9,
    OutOfOrder = 10,
    BadDescriptor = 11,
    BadBackslash = 12,
    NoEnd = 13,
    MissingField = 14,
    ExtentTooLarge = 15,
    SkipPastEnd = 16,
    PlaceTooLarge = 17,
    DataTooShort = 18,
    FloatSamples = 19,
    BadSample = 20,
    DataEndsEarly = 21,
    LentTooShort = 22,
    BadCoordinates = 23,
    BadKey = 24,
    BadValue = 25,
    WrongTable = 26,
    WrongCount = 27,
    NoSweep = 28,
    NoSuchFile = 29,
    SeveralFiles = 33,
}

impl Reason {
    // Its number of refusal.
    pub fn number(self) -> u32
        ensures { result ≡ reason_number self }
    {
        self as u32
    }

    // The refusal for this reason at a line, 0 where no line is meant.
    pub fn at_line(self, line: u32) -> Refused
        ensures reason { result.reason ≡ self }
        ensures line { result.line ≡ line }
    {
        Refused { reason: self, line }
    }
}

// Why a call is refused, and the line at which the reader met it; 0 where no line is meant.
#[derive(Clone, Copy, PartialEq, Eq)]
pub struct Refused {
    pub reason: Reason,
    pub line: u32,
}

impl From<Reason> for Refused {
    ghost from_gives = { λ reason refused. refused ≡ without_line reason };

    fn from(reason: Reason) -> Refused {
        Refused { reason, line: 0 }
    }
}

impl From<Refused> for Refusal {
    ghost from_gives = { λ refused refusal. refusal ≡ refusal_of refused };

    fn from(refused: Refused) -> Refusal {
        Refusal {
            number: refused.reason.number(),
            line: refused.line,
        }
    }
}
