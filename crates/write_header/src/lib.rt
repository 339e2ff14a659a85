// The writer of headers with an orientation. It reads its text before it answers: what a reading of the text refuses, the writer refuses.
#![tactic(auto)]

ghost use Rattle.std.specs.Prelude.{◌≡◌, List, ℕ};
ghost use Rattle.format.specs.declared.WriteAnswer.{WriteAnswer};
ghost use Rattle.format.specs.Answers.{length_answered};
ghost use Rattle.format.specs.Header.{header};
ghost use Rattle.format.specs.HeaderWriter.{after_reading, write_header_call};
ghost use Rattle.format.specs.EntryPoints.{write_header_entry};
ghost use Rattle.write_checks.specs.Checked.{on_asked};
ghost use Rattle.write_header.specs.Stored.{lent_call};
ghost use Rattle.write_header.specs.Headers.{given_call};

mod checks;
mod lent;
mod text;

use checks::Given;
use format::reason::{Reason, Refused};
use format::{Decimal, Shape, WriteAnswer};
use write_checks::asked::Asked;

// Enough for any text: none is longer than 7,287 bytes.
const TEXT_ROOM: usize = 8192;

// What an array holds before its decimals are read.
const NOUGHT: Decimal = Decimal {
    number: 0,
    power: 0,
    kind: 0,
};

// The orientation of a call that is given none: the arrays stand for nothing.
const NOTHING: Given = Given {
    shape: Shape {
        given: 0,
        components: 0,
        axes: 0,
        columns: 0,
        space: 0,
        spacedimension: 0,
    },
    origin: [NOUGHT; 8],
    directions: [[NOUGHT; 8]; 16],
    frame: [[NOUGHT; 8]; 8],
};

// The text to the front of `out`, unless its reading refuses it; the answer is its length.
fn hand_over(text: &[u8], out: &mut [u8]) -> Result<u64, Refused>
    ensures { ◌≡◌ {A = WriteAnswer × List ℕ} (length_answered result, out.new) (after_reading (header text.now) text.now out.old) }
{
    read_header::read::reading(text)?;
    if out.len() < text.len() {
        return Err(Reason::LentTooShort.into());
    }
    Ok(write_parts::bytes::put_bytes(out, 0, text) as u64)
}

// The call, by what it asks for.
fn write_given(asked: Asked, given: &Given, out: &mut [u8]) -> Result<u64, Refused>
    ensures { ◌≡◌ {A = WriteAnswer × List ℕ} (length_answered result, out.new) (given_call asked.entry given.now out.old) }
{
    let header = checks::check(asked, given)?;
    let mut text = [0u8; TEXT_ROOM];
    let n = text::put_text(&mut text, &header);
    hand_over(&text[..n], out)
}

// Writes a header with its orientation to the front of `out`. A call that is refused leaves it as it was.
pub fn write_header(
    version: u64,
    sizes: &[u64],
    sampletype: u64,
    encoding: u64,
    endian: u64,
    shape: Shape,
    origin: [Decimal; 8],
    directions: [[Decimal; 8]; 16],
    frame: [[Decimal; 8]; 8],
    out: &mut [u8],
) -> WriteAnswer
    ensures { ◌≡◌ {A = WriteAnswer × List ℕ} (result, out.new) (write_header_call version sizes.now sampletype encoding endian shape origin directions frame out.old) }
{
    let asked = Asked {
        version,
        sizes,
        sampletype,
        encoding,
        endian,
    };
    let given = Given {
        shape,
        origin,
        directions,
        frame,
    };
    write_given(asked, &given, out).into()
}

// The call with an orientation in lent bytes, none where nothing is given.
fn write_lent(asked: Asked, orientation: &[u8], out: &mut [u8]) -> Result<u64, Refused>
    ensures { ◌≡◌ {A = WriteAnswer × List ℕ} (length_answered result, out.new) (on_asked lent_call asked.entry orientation.now out.old) }
{
    let mut given = NOTHING;
    if orientation.is_empty() {
        write_given(asked, &given, out)
    } else if orientation.len() == lent::WIDTH {
        lent::read_given(orientation, &mut given);
        write_given(asked, &given, out)
    } else {
        Err(Reason::BadDescriptor.into())
    }
}

// The same for sizes that are lent as bytes, 8 each, the low byte first. One size more than a header can have is enough to refuse.
pub fn write_header_bytes(
    version: u64,
    sizes: &[u8],
    sampletype: u64,
    encoding: u64,
    endian: u64,
    orientation: &[u8],
    out: &mut [u8],
) -> WriteAnswer
    ensures { ◌≡◌ {A = WriteAnswer × List ℕ} (result, out.new) (write_header_entry version sizes.now sampletype encoding endian orientation.now out.old) }
{
    let mut ns = [0u64; format::AXES + 1];
    let n = lent_numbers::numbers(sizes, &mut ns);
    let asked = Asked {
        version,
        sizes: &ns[..n],
        sampletype,
        encoding,
        endian,
    };
    write_lent(asked, orientation, out).into()
}
