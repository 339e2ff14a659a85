// Answers for callers in C, made of results: a refusal with zeros beside it, or what was found with no refusal.
ghost use Rattle.std.specs.Prelude.{◌≡◌};
ghost use Rattle.format.specs.declared.ReadAnswer.{ReadAnswer};
ghost use Rattle.format.specs.declared.FindAnswer.{FindAnswer};
ghost use Rattle.format.specs.declared.ValueAnswer.{ValueAnswer};
ghost use Rattle.format.specs.declared.CountAnswer.{CountAnswer};
ghost use Rattle.format.specs.declared.NumberAnswer.{NumberAnswer};
ghost use Rattle.format.specs.declared.WriteAnswer.{WriteAnswer};
ghost use Rattle.format.specs.Answers.{reading_answered, place_answered, value_answered, count_answered, number_answered, length_answered};

use crate::reason::Refused;
use crate::{
    AXES, CountAnswer, FindAnswer, NumberAnswer, ReadAnswer, Reading, Refusal, ValueAnswer,
    WriteAnswer,
};

// Where bytes lie in a file.
#[derive(Clone, Copy, PartialEq, Eq)]
pub struct Place {
    pub start: u64,
    pub length: u64,
}

// Nothing is refused.
const FINE: Refusal = Refusal { number: 0, line: 0 };

// The reading of a refused call: all zero.
const NO_READING: Reading = Reading {
    version: 0,
    form: 0,
    dimension: 0,
    sampletype: 0,
    encoding: 0,
    endian: 0,
    sizes: [0u64; AXES],
    lineskip: 0,
    byteskip: 0,
    extent: 0,
    length: 0,
    lines: 0,
    fromend: false,
    origin: false,
    directions: false,
    frame: false,
    space: 0,
    spacedimension: 0,
    files: 0,
    fieldlines: 0,
};

impl From<Result<Reading, Refused>> for ReadAnswer {
    ghost from_gives = { λ reading answer. answer ≡ reading_answered reading };

    fn from(reading: Result<Reading, Refused>) -> ReadAnswer {
        match reading {
            Ok(reading) => ReadAnswer {
                refusal: FINE,
                reading,
            },
            Err(refused) => ReadAnswer {
                refusal: refused.into(),
                reading: NO_READING,
            },
        }
    }
}

impl From<Result<Option<Place>, Refused>> for FindAnswer {
    ghost from_gives = { λ place answer. answer ≡ place_answered place };

    fn from(place: Result<Option<Place>, Refused>) -> FindAnswer {
        match place {
            Ok(Some(place)) => FindAnswer {
                refusal: FINE,
                found: true,
                start: place.start,
                length: place.length,
            },
            Ok(None) => FindAnswer {
                refusal: FINE,
                found: false,
                start: 0,
                length: 0,
            },
            Err(refused) => FindAnswer {
                refusal: refused.into(),
                found: false,
                start: 0,
                length: 0,
            },
        }
    }
}

impl From<Result<Option<u64>, Refused>> for ValueAnswer {
    ghost from_gives = { λ length answer. answer ≡ value_answered length };

    fn from(length: Result<Option<u64>, Refused>) -> ValueAnswer {
        match length {
            Ok(Some(length)) => ValueAnswer {
                refusal: FINE,
                found: true,
                length,
            },
            Ok(None) => ValueAnswer {
                refusal: FINE,
                found: false,
                length: 0,
            },
            Err(refused) => ValueAnswer {
                refusal: refused.into(),
                found: false,
                length: 0,
            },
        }
    }
}

impl From<Result<u64, Refused>> for CountAnswer {
    ghost from_gives = { λ count answer. answer ≡ count_answered count };

    fn from(count: Result<u64, Refused>) -> CountAnswer {
        match count {
            Ok(count) => CountAnswer {
                refusal: FINE,
                count,
            },
            Err(refused) => CountAnswer {
                refusal: refused.into(),
                count: 0,
            },
        }
    }
}

impl From<Result<u64, Refused>> for NumberAnswer {
    ghost from_gives = { λ number answer. answer ≡ number_answered number };

    fn from(number: Result<u64, Refused>) -> NumberAnswer {
        match number {
            Ok(number) => NumberAnswer {
                refusal: FINE,
                number,
            },
            Err(refused) => NumberAnswer {
                refusal: refused.into(),
                number: 0,
            },
        }
    }
}

impl From<Result<u64, Refused>> for WriteAnswer {
    ghost from_gives = { λ length answer. answer ≡ length_answered length };

    fn from(length: Result<u64, Refused>) -> WriteAnswer {
        match length {
            Ok(length) => WriteAnswer {
                refusal: FINE,
                length,
            },
            Err(refused) => WriteAnswer {
                refusal: refused.into(),
                length: 0,
            },
        }
    }
}
