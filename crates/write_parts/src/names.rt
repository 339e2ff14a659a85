// Names of types, encodings and endians, as a header has them.
ghost use Rattle.std.specs.Prelude.{◌≡◌, ◌≤◌, length};
ghost use Rattle.format.specs.Bytes.{bytes};
ghost use Rattle.format.specs.Codes.{type_code, encoding_code, endian_code};
ghost use Rattle.format.specs.Descriptors.{type_at, type_name, encodings, endians};
ghost use Rattle.format.specs.Writer.{name_at};

use format::codes::{Encoding, Endian, SampleType};

#[tactic(auto, unfolding(format::specs::Descriptors::type_at))]
pub fn type_name(sample_type: SampleType) -> &'static [u8]
    ensures is { result.now ≡ bytes (type_name (type_at (type_code sample_type))) }
    ensures short { length result.now ≤ 6 }
{
    match sample_type {
        SampleType::Int8 => b"int8",
        SampleType::Uint8 => b"uint8",
        SampleType::Int16 => b"int16",
        SampleType::Uint16 => b"uint16",
        SampleType::Int32 => b"int32",
        SampleType::Uint32 => b"uint32",
        SampleType::Int64 => b"int64",
        SampleType::Uint64 => b"uint64",
        SampleType::Float => b"float",
        SampleType::Double => b"double",
    }
}

pub fn encoding_name(encoding: Encoding) -> &'static [u8]
    ensures is { result.now ≡ name_at encodings (encoding_code encoding) }
    ensures short { length result.now ≤ 3 }
{
    match encoding {
        Encoding::Raw => b"raw",
        Encoding::Text => b"txt",
        Encoding::Hex => b"hex",
    }
}

pub fn endian_name(endian: Endian) -> &'static [u8]
    ensures is { result.now ≡ name_at endians (endian_code endian) }
    ensures short { length result.now ≤ 6 }
{
    match endian {
        Endian::Little => b"little",
        Endian::Big => b"big",
    }
}
