// The writer of attached files. That what it writes is read back is the theorem of crate `theorem_roundtrip`.
#![tactic(auto)]

ghost use Rattle.std.specs.Prelude.{◌≡◌, List, ℕ, ◌/◌, ◌≤◌, length};
ghost use Rattle.format.specs.declared.WriteAnswer.{WriteAnswer};
ghost use Rattle.format.specs.Answers.{length_answered};
ghost use Rattle.format.specs.Boundary.{word_bytes, numbers_of, samples_lent};
ghost use Rattle.format.specs.Calls.{write_call};
ghost use Rattle.format.specs.Room.{Enough, write_room};
ghost use Rattle.write_checks.specs.Checked.{on_asked};

pub mod head;

use format::WriteAnswer;
use format::reason::Refused;
use write_checks::asked::Asked;
use write_checks::check;
use write_checks::source::Source;

// Writes the samples as an attached file to the front of `out`, and answers its length. A call that is refused leaves it as it was.
fn write_samples<S: Source>(asked: Asked, samples: &[S], out: &mut [u8]) -> Result<u64, Refused>
    ensures { ◌≡◌ {A = WriteAnswer × List ℕ} (length_answered result, out.new) (on_asked write_call asked.entry (S.samples samples.now) out.old) }
{
    let array = check::check_asked(asked, samples)?;
    let mut head = [0u8; format::HEADER_ROOM];
    let start = head::put_header(&mut head, &array);
    let encoding = array.coding.encoding.code() as u64;
    let width = array.coding.sample_type.bytes() as usize;
    let endian = array.coding.endian.code() as u64;
    write_data::check_file(start, samples, encoding, width, out.len())?;
    write_parts::bytes::put_bytes(out, 0, &head[..start]);
    Ok(write_data::put_data(out, start, samples, encoding, width, endian) as u64)
}

// Writes samples that are numbers as an attached file to the front of `out`; a refused call leaves `out` as it was. `HEADER_ROOM` bytes, and
// `SAMPLE_ROOM` for each sample, are enough for any file.
pub fn write(
    version: u64,
    sizes: &[u64],
    sampletype: u64,
    encoding: u64,
    endian: u64,
    samples: &[i64],
    out: &mut [u8],
) -> WriteAnswer
    ensures call { ◌≡◌ {A = WriteAnswer × List ℕ} (result, out.new) (write_call version sizes.now sampletype encoding endian samples.now out.old) }
    ensures enough { write_room (length samples.now) ≤ length out.old → Enough result.refusal }
{
    let asked = Asked {
        version,
        sizes,
        sampletype,
        encoding,
        endian,
    };
    write_samples(asked, samples, out).into()
}

// The same for sizes and samples that are lent as bytes, 8 each, the low byte first. One size more than a header can have is enough to refuse.
pub fn write_bytes(
    version: u64,
    sizes: &[u8],
    sampletype: u64,
    encoding: u64,
    endian: u64,
    samples: &[u8],
    out: &mut [u8],
) -> WriteAnswer
    ensures call { ◌≡◌ {A = WriteAnswer × List ℕ} (result, out.new) (write_call version (numbers_of 8 sizes.now) sampletype encoding endian (samples_lent samples.now) out.old) }
    ensures enough { write_room (length samples.now / word_bytes) ≤ length out.old → Enough result.refusal }
{
    let mut ns = [0u64; format::AXES + 1];
    let n = lent_numbers::numbers(sizes, &mut ns);
    let asked = Asked {
        version,
        sizes: &ns[..n],
        sampletype,
        encoding,
        endian,
    };
    write_samples(asked, samples, out).into()
}
