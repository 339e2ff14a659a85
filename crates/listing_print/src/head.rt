// The lines of a reading, all but those of its keys. Each function returns the place after its lines.
ghost use Rattle.std.specs.Prelude.{◌≡◌, ◌++◌, ◌∷◌, [], ◌+◌, ◌*◌, ◌≤◌, ◌<◌, length, if◌then◌else◌};
ghost use Rattle.format.specs.Bytes.{SPACE};
ghost use Rattle.format.specs.Limits.{max_axes, max_listing};
ghost use Rattle.format.specs.Descriptors.{encodings};
ghost use Rattle.format.specs.Writer.{decimal, spaced, name_at};
ghost use Rattle.format.specs.Listing.{shown};
ghost use Rattle.listing_print.specs.Printed.{Printed};
ghost use Rattle.listing_print.specs.Lines.{form_text, type_text, endian_text, top_text, middle_text, end_text};

use crate::put;
use format::Reading;
use format::codes::{Encoding, Endian, NotListed, SampleType};
use write_parts::names;

// The line of the form.
fn put_form(out: &mut [u8], at: usize, form: u32) -> usize
    requires { at + 14 ≤ max_listing }
    ensures { Printed 14 out.old at (shown "form" (form_text form)) out.new result }
{
    if form == format::DETACHED {
        put::put_line(out, at, b"form ", b"detached")
    } else {
        put::put_line(out, at, b"form ", b"attached")
    }
}

// The name of the type with this number. A number past the list stands for the first.
fn type_name(sampletype: u32) -> &'static [u8]
    ensures is { result.now ≡ type_text sampletype }
    ensures short { length result.now ≤ 6 }
{
    match SampleType::try_from(sampletype as u64) {
        Ok(sampletype) => names::type_name(sampletype),
        Err(NotListed) => names::type_name(SampleType::Int8),
    }
}

// The name of the encoding with this number; a number past the list has none.
fn encoding_name(encoding: u32) -> &'static [u8]
    ensures is { result.now ≡ name_at encodings encoding }
    ensures short { length result.now ≤ 3 }
{
    match Encoding::try_from(encoding as u64) {
        Ok(encoding) => names::encoding_name(encoding),
        Err(NotListed) => b"",
    }
}

// The name of the endian with this number, and that where none is given; a number past these has none.
fn endian_name(endian: u32) -> &'static [u8]
    ensures is { result.now ≡ endian_text endian }
    ensures short { length result.now ≤ 6 }
{
    match Endian::try_from(endian as u64) {
        Ok(endian) => names::endian_name(endian),
        Err(NotListed) if endian == format::NO_ENDIAN => b"none",
        Err(NotListed) => b"",
    }
}

// A size, and a space if there are more.
fn put_size(out: &mut [u8], at: usize, n: u64, more: bool) -> usize
    requires { at + 21 ≤ max_listing }
    ensures { Printed 21 out.old at (decimal n ++ (if more then SPACE ∷ [] else [])) out.new result }
{
    let e = put::put_decimal(out, at, n);
    if more {
        put::put_bytes(out, e, b" ")
    } else {
        e
    }
}

// Sizes parted by one space.
fn put_spaced(out: &mut [u8], at: usize, ns: &[u64]) -> usize
    requires { at + 21 * length ns.now ≤ max_listing }
    ensures { Printed (21 * length ns.now) out.old at (spaced ns.now) out.new result }
{
    let mut o = at;
    for (i, &n) in ns.iter().enumerate() {
        o = put_size(out, o, n, i + 1 < ns.len());
    }
    o
}

// The line of the sizes.
fn put_sizes(out: &mut [u8], at: usize, ns: &[u64]) -> usize
    requires { (at + (7 + 21 * max_axes) ≤ max_listing) × (length ns.now ≤ max_axes) }
    ensures { Printed (7 + 21 * max_axes) out.old at (shown "sizes" (spaced ns.now)) out.new result }
{
    let a = put::put_bytes(out, at, b"sizes ");
    let e = put_spaced(out, a, ns);
    put::put_bytes(out, e, b"\n")
}

// The lines of the version, the form and the type, at the front.
pub fn put_top(out: &mut [u8], reading: Reading) -> usize
    ensures { Printed 55 out.old 0 (top_text reading) out.new result }
{
    let a = put::put_number(out, 0, b"version ", reading.version as u64);
    let e = put_form(out, a, reading.form);
    put::put_line(out, e, b"type ", type_name(reading.sampletype))
}

// The lines of the sizes, the encoding and the endian.
pub fn put_middle(out: &mut [u8], at: usize, reading: Reading) -> usize
    requires { (at + (34 + 21 * max_axes) ≤ max_listing) × (reading.dimension ≤ length reading.sizes) }
    ensures { Printed (34 + 21 * max_axes) out.old at (middle_text reading) out.new result }
{
    let sizes = reading.sizes;
    let n = reading.dimension as usize;
    let a = put_sizes(out, at, &sizes[..n]);
    let e = put::put_line(out, a, b"encoding ", encoding_name(reading.encoding));
    put::put_line(out, e, b"endian ", endian_name(reading.endian))
}

// The lines of the start and the extent.
pub fn put_end(out: &mut [u8], at: usize, start: u64, extent: u64) -> usize
    requires { at + 55 ≤ max_listing }
    ensures { Printed 55 out.old at (end_text start extent) out.new result }
{
    let e = put::put_number(out, at, b"start ", start);
    put::put_number(out, e, b"extent ", extent)
}
