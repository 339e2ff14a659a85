// What the writer refuses of samples, and of a file by its length.
ghost use Rattle.std.specs.Prelude.{◌≡◌, ℕ, ◌+◌, ◌<◌, ◌≤◌, true, nat_le, IfOk};
ghost use Rattle.format.specs.Codes.{type_code};
ghost use Rattle.format.specs.Reasons.{refusal_number};
ghost use Rattle.format.specs.Samples.{to_signed};
ghost use Rattle.format.specs.Writer.{writable};
ghost use Rattle.write_checks.specs.Checked.{on_array, on_asked, IsOf};
ghost use Rattle.write_checks.specs.Refused.{in_range, all_in_range, WholeRange, early_refusal, late_refusal, Ready};

use crate::asked::{Array, Asked};
use crate::source::Source;
use format::reason::Reason;
use format_values::{products, types};

// The sample of the bits x, counted from -low on: the samples up to high are the numbers up to low + high.
fn from_lowest(x: u64, low: u64) -> u64
    requires { low ≤ 9223372036854775808 }
    ensures { (high : ℕ) → high < 9223372036854775808 → nat_le result (low + high) ≡ in_range low high (to_signed 8 x) }
{
    x.wrapping_add(low)
}

// Whether all samples lie from -low to high. These are as many values as a power of 2: the numbers are all below it where their bits together are.
fn all_in_range<S: Source>(samples: &[S], low: u64, high: u64) -> bool
    requires both_small { (low ≤ 9223372036854775808) × (high < 9223372036854775808) }
    requires whole_range { WholeRange low high }
    ensures { result ≡ all_in_range low high (S.samples samples.now) }
{
    let mut all: u64 = 0;
    for i in 0..S::count(samples) {
        all = all | from_lowest(S::bits_at(samples, i), low);
    }
    all <= low + high
}

// Whether these samples can be written as this array: what is refused before the file's length is known.
pub fn check_samples<S: Source>(array: &Array, samples: &[S]) -> Result<(), Reason>
    ensures is { on_array writable array.now ≡ true → refusal_number result ≡ on_array early_refusal array.now (S.samples samples.now) }
    ensures ready { IfOk result (λ _. Ready (type_code array.now.coding.sample_type) (S.samples samples.now)) }
{
    let n = products::product(array.sizes);
    let count = S::count(samples) as u64;
    let width = array.coding.sample_type.bytes();
    if format::MAX_EXTENT < products::times(n, width) {
        return Err(Reason::ExtentTooLarge);
    }
    if array.coding.sample_type.is_floating() {
        return Err(Reason::FloatSamples);
    }
    if count != n {
        return Err(Reason::WrongCount);
    }
    let signed = array.coding.sample_type.is_signed();
    let low = types::lowest(signed, width);
    let high = types::highest(signed, width);
    if !all_in_range(samples, low, high) {
        return Err(Reason::BadSample);
    }
    Ok(())
}

// What is asked for as an array, where these samples can be written as it: else the first refusal that both meet before the file's length is known.
pub fn check_asked<'a, S: Source>(asked: Asked<'a>, samples: &[S]) -> Result<Array<'a>, Reason>
    ensures refusal { refusal_number result ≡ on_asked early_refusal asked.entry (S.samples samples.now) }
    ensures array { IfOk result (λ array. IsOf asked.entry array) }
    ensures ready { IfOk result (λ array. Ready (type_code array.coding.sample_type) (S.samples samples.now)) }
{
    let array = Array::try_from(asked)?;
    check_samples(&array, samples)?;
    Ok(array)
}

// Whether a file of `total` bytes can be written to a buffer of `room` bytes.
pub fn check_room(total: usize, room: usize) -> Result<(), Reason>
    ensures { refusal_number result ≡ late_refusal total room }
{
    if format::MAX_FILE < total {
        Err(Reason::FileTooLong)
    } else if room < total {
        Err(Reason::LentTooShort)
    } else {
        Ok(())
    }
}
