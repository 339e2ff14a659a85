// The types of samples: their bytes, kinds and bounds, for every crate that asks for them.
ghost use Rattle.std.specs.Prelude.{◌≡◌, ◌^◌, ◌/◌};
ghost use Rattle.format.specs.Descriptors.{sample_bytes, number_kind, is_signed, is_floating};
ghost use Rattle.format.specs.Codes.{type_code};
ghost use Rattle.format.specs.Samples.{lowest, highest};
ghost use Rattle.format.specs.Widths.{kind_by, width_by};

use format::codes::SampleType;

// Types are numbered from 0 as the rules list them: first the integer ones, signed and unsigned by turns, then float and double.
pub const FLOAT: u64 = SampleType::Float as u64;

pub const COUNT: u64 = SampleType::Double as u64 + 1;

// The type with this number. A number past the list stands for the first type.
fn type_of(t: u64) -> SampleType
    ensures bytes { sample_bytes (type_code result) ≡ sample_bytes t }
    ensures kind { number_kind (type_code result) ≡ number_kind t }
{
    SampleType::try_from(t).unwrap_or(SampleType::Int8)
}

// The bytes of a sample.
pub fn sample_bytes(t: u64) -> u64
    ensures { result ≡ sample_bytes t }
{
    type_of(t).bytes()
}

// Whether a type is signed.
pub fn is_signed(t: u64) -> bool
    ensures { result ≡ is_signed (number_kind t) }
{
    type_of(t).is_signed()
}

// Whether a type is float or double.
pub fn is_floating(t: u64) -> bool
    ensures { result ≡ is_floating (number_kind t) }
{
    type_of(t).is_floating()
}

// Half of the values that w bytes have.
fn half(w: u64) -> u64
    ensures { result ≡ 256 ^ width_by w / 2 }
{
    match w {
        1 => 128,
        2 => 32768,
        4 => 2147483648,
        _ => 9223372036854775808,
    }
}

// The least value of an integer type of w bytes is minus this.
pub fn lowest(signed: bool, w: u64) -> u64
    ensures { result ≡ lowest (kind_by signed) (width_by w) }
{
    if signed { half(w) } else { 0 }
}

// Its greatest value. No sample is above that of int64.
pub fn highest(signed: bool, w: u64) -> u64
    ensures { result ≡ highest (kind_by signed) (width_by w) }
{
    let h = half(w);
    if signed {
        h - 1
    } else {
        (h - 1 + h).min(format::MAX_SAMPLE)
    }
}
