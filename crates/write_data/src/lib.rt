// The data of the samples in each encoding, and its length.
#![tactic(auto)]

ghost use Rattle.std.specs.Prelude.{◌≡◌, ℕ, ◌+◌, ◌*◌, ◌≤◌, true, length};
ghost use mathlib.Core.List.{flat_map};
ghost use Rattle.std.proofs.lemmas.List.Edits.{sets};
ghost use Rattle.format.specs.Descriptors.{as_text};
ghost use Rattle.format.specs.Limits.{max_extent};
ghost use Rattle.format.specs.Reasons.{refusal_number};
ghost use Rattle.format.specs.Room.{header_room, sample_room};
ghost use Rattle.format.specs.Widths.{Width};
ghost use Rattle.format.specs.Writer.{hex_text, text_data, raw_data, data_bytes};
ghost use Rattle.write_checks.specs.Refused.{late_refusal};
ghost use Rattle.write_data.specs.Data.{low_bytes};

use format::reason::Reason;
use format::wide;
use write_checks::check;
use write_checks::source::Source;

// How many bytes the samples take as text.
fn text_length<S: Source>(samples: &[S]) -> usize
    requires { length (S.samples samples.now) ≤ max_extent }
    ensures { (result ≡ length (text_data (S.samples samples.now))) × (result ≤ sample_room * length (S.samples samples.now)) }
{
    let mut total: usize = 0;
    for i in 0..S::count(samples) {
        total += write_parts::samples::signed_length(S::bits_at(samples, i)) + 1;
    }
    total
}

// The samples as text, one on a line.
fn put_text<S: Source>(out: &mut [u8], at: usize, samples: &[S]) -> usize
    requires { at + length (text_data (S.samples samples.now)) ≤ length out.old }
    ensures place { result ≡ at + length (text_data (S.samples samples.now)) }
    ensures stored { out.new ≡ sets out.old at (text_data (S.samples samples.now)) }
{
    let mut o = at;
    for i in 0..S::count(samples) {
        o = write_parts::samples::put_text_line(out, o, S::bits_at(samples, i));
    }
    o
}

// The low W bytes of each sample. The compiler makes a loop of each W.
fn put_low<const W: usize, S: Source>(
    out: &mut [u8],
    at: usize,
    samples: &[S],
    endian: u64,
) -> usize
    requires { at + length (S.samples samples.now) * W ≤ length out.old }
    ensures place { result ≡ at + length (S.samples samples.now) * W }
    ensures stored { out.new ≡ sets out.old at (flat_map (low_bytes W endian) (S.samples samples.now)) }
{
    let mut o = at;
    for i in 0..S::count(samples) {
        o = write_parts::bytes::put_word(out, o, S::bits_at(samples, i), W, endian);
    }
    o
}

// The low w bytes of each sample.
fn put_raw<S: Source>(out: &mut [u8], at: usize, samples: &[S], w: usize, endian: u64) -> usize
    requires width { Width w }
    requires room { at + length (S.samples samples.now) * w ≤ length out.old }
    ensures place { result ≡ at + length (S.samples samples.now) * w }
    ensures stored { out.new ≡ sets out.old at (flat_map (low_bytes w endian) (S.samples samples.now)) }
{
    match w {
        1 => put_low::<1, S>(out, at, samples, endian),
        2 => put_low::<2, S>(out, at, samples, endian),
        4 => put_low::<4, S>(out, at, samples, endian),
        _ => put_low::<8, S>(out, at, samples, endian),
    }
}

// How many samples are put to hex at a time.
const PART: usize = 256;

// The samples in hex: their bytes are made in a buffer, a part of the samples at a time.
fn put_hex<S: Source>(out: &mut [u8], at: usize, samples: &[S], w: usize, endian: u64) -> usize
    requires width { Width w }
    requires room { at + length (S.samples samples.now) * (2 * w) ≤ length out.old }
    ensures place { result ≡ at + length (S.samples samples.now) * (2 * w) }
    ensures stored { out.new ≡ sets out.old at (hex_text (flat_map (low_bytes w endian) (S.samples samples.now))) }
{
    let n = S::count(samples);
    let mut part = [0u8; 8 * PART];
    let mut o = at;
    let mut i: usize = 0;
    // A `while`, since a turn takes as many samples as a part has; of lent bytes `chunks` would count the bytes.
    while i < n {
        let to = i + PART.min(n - i);
        let used = put_raw(&mut part, 0, S::part(samples, i, to), w, endian);
        o = write_parts::bytes::put_hex_bytes(out, o, &part[..used]);
        i = to;
    }
    o
}

// How many bytes the data takes.
fn data_length<S: Source>(samples: &[S], encoding: u64, w: usize) -> usize
    requires { (length (S.samples samples.now) ≤ max_extent) × (length (S.samples samples.now) * w ≤ max_extent) }
    ensures length_of_data { (endian : ℕ) → result ≡ length (data_bytes encoding w endian (S.samples samples.now)) }
    ensures long { result ≤ sample_room * max_extent }
{
    let size = S::count(samples) * w;
    match encoding {
        wide::RAW => size,
        wide::TEXT => text_length(samples),
        _ => 2 * size + 1,
    }
}

// Whether text fits, however long its n lines are.
fn any_text_fits(start: usize, n: usize, encoding: u64, room: usize) -> bool
    requires { (start ≤ header_room) × (n ≤ max_extent) }
    ensures { result ≡ true → (encoding ≡ as_text) × (0 ≡ late_refusal (start + sample_room * n) room) }
{
    match encoding {
        wide::TEXT => check::check_room(start + format::SAMPLE_ROOM * n, room).is_ok(),
        _ => false,
    }
}

// Whether a file whose data starts at `start` can be written. The length of text is worked out only where its lines might not fit.
// Any numbers are taken, as `data_bytes` takes them: that the encoding is one, and the width that of a type, is the writer's to check.
pub fn check_file<S: Source>(
    start: usize,
    samples: &[S],
    encoding: u64,
    w: usize,
    room: usize,
) -> Result<(), Reason>
    requires bounded { (start ≤ header_room) × (length (S.samples samples.now) ≤ max_extent) × (length (S.samples samples.now) * w ≤ max_extent) }
    requires text_bounded { length (text_data (S.samples samples.now)) ≤ sample_room * length (S.samples samples.now) }
    ensures { (endian : ℕ) → refusal_number result ≡ late_refusal (start + length (data_bytes encoding w endian (S.samples samples.now))) room }
{
    if any_text_fits(start, S::count(samples), encoding, room) {
        Ok(())
    } else {
        check::check_room(start + data_length(samples, encoding, w), room)
    }
}

// The data. The samples are those of a type of w bytes: the low bytes of each are its bytes.
pub fn put_data<S: Source>(
    out: &mut [u8],
    at: usize,
    samples: &[S],
    encoding: u64,
    w: usize,
    endian: u64,
) -> usize
    requires raw_bytes { Width w × (flat_map (low_bytes w endian) (S.samples samples.now) ≡ raw_data w endian (S.samples samples.now)) }
    requires room { at + length (data_bytes encoding w endian (S.samples samples.now)) ≤ length out.old }
    ensures place { result ≡ at + length (data_bytes encoding w endian (S.samples samples.now)) }
    ensures stored { out.new ≡ sets out.old at (data_bytes encoding w endian (S.samples samples.now)) }
{
    match encoding {
        wide::RAW => put_raw(out, at, samples, w, endian),
        wide::TEXT => put_text(out, at, samples),
        _ => {
            let end = put_hex(out, at, samples, w, endian);
            out[end] = b'\n';
            end + 1
        }
    }
}
