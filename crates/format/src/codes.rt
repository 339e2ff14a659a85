// Encodings, endians and types of samples by name. Callers in C have their numbers, from 0 as the rules list them.
ghost use Rattle.std.specs.Prelude.{◌≡◌, ◌≤◌, MatchResult};
ghost use Rattle.format.specs.Descriptors.{sample_bytes, number_kind, is_signed, is_floating};
ghost use Rattle.format.specs.Codes.{encoding_code, endian_code, type_code};

// A number that is none of the kind.
#[derive(Clone, Copy, PartialEq, Eq)]
pub struct NotListed;

#[derive(Clone, Copy, PartialEq, Eq)]
pub enum Encoding {
    Raw,
    Text,
    Hex,
}

impl Encoding {
    pub fn code(self) -> u32
        ensures { result ≡ encoding_code self }
    {
        self as u32
    }
}

impl TryFrom<u64> for Encoding {
    type Error = NotListed;

    ghost try_from_gives = { λ n r. MatchResult r (λ e. encoding_code e ≡ n) (λ _. 3 ≤ n) };

    fn try_from(code: u64) -> Result<Encoding, NotListed> {
        match code {
            0 => Ok(Encoding::Raw),
            1 => Ok(Encoding::Text),
            2 => Ok(Encoding::Hex),
            _ => Err(NotListed),
        }
    }
}

// The order of a sample's bytes.
#[derive(Clone, Copy, PartialEq, Eq)]
pub enum Endian {
    Little,
    Big,
}

impl Endian {
    pub fn code(self) -> u32
        ensures { result ≡ endian_code self }
    {
        self as u32
    }
}

impl TryFrom<u64> for Endian {
    type Error = NotListed;

    ghost try_from_gives = { λ n r. MatchResult r (λ e. endian_code e ≡ n) (λ _. 2 ≤ n) };

    fn try_from(code: u64) -> Result<Endian, NotListed> {
        match code {
            0 => Ok(Endian::Little),
            1 => Ok(Endian::Big),
            _ => Err(NotListed),
        }
    }
}

#[derive(Clone, Copy, PartialEq, Eq)]
pub enum SampleType {
    Int8,
    Uint8,
    Int16,
    Uint16,
    Int32,
    Uint32,
    Int64,
    Uint64,
    Float,
    Double,
}

impl SampleType {
    pub fn code(self) -> u32
        ensures { result ≡ type_code self }
    {
        self as u32
    }

    // The bytes of a sample.
    #[tactic(auto, unfolding(crate::specs::Descriptors::type_at))]
    pub fn bytes(self) -> u64
        ensures { result ≡ sample_bytes (type_code self) }
    {
        match self {
            SampleType::Int8 | SampleType::Uint8 => 1,
            SampleType::Int16 | SampleType::Uint16 => 2,
            SampleType::Int32 | SampleType::Uint32 | SampleType::Float => 4,
            SampleType::Int64 | SampleType::Uint64 | SampleType::Double => 8,
        }
    }

    #[tactic(auto, unfolding(crate::specs::Descriptors::type_at))]
    pub fn is_signed(self) -> bool
        ensures { result ≡ is_signed (number_kind (type_code self)) }
    {
        matches!(
            self,
            SampleType::Int8 | SampleType::Int16 | SampleType::Int32 | SampleType::Int64
        )
    }

    #[tactic(auto, unfolding(crate::specs::Descriptors::type_at))]
    pub fn is_floating(self) -> bool
        ensures { result ≡ is_floating (number_kind (type_code self)) }
    {
        matches!(self, SampleType::Float | SampleType::Double)
    }
}

impl TryFrom<u64> for SampleType {
    type Error = NotListed;

    ghost try_from_gives = { λ n r. MatchResult r (λ t. type_code t ≡ n) (λ _. 10 ≤ n) };

    fn try_from(code: u64) -> Result<SampleType, NotListed> {
        match code {
            0 => Ok(SampleType::Int8),
            1 => Ok(SampleType::Uint8),
            2 => Ok(SampleType::Int16),
            3 => Ok(SampleType::Uint16),
            4 => Ok(SampleType::Int32),
            5 => Ok(SampleType::Uint32),
            6 => Ok(SampleType::Int64),
            7 => Ok(SampleType::Uint64),
            8 => Ok(SampleType::Float),
            9 => Ok(SampleType::Double),
            _ => Err(NotListed),
        }
    }
}
