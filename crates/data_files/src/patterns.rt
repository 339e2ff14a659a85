// The name of a file by the descriptor of a data file: a name itself, or a pattern with a number in it.
ghost use Rattle.std.specs.Prelude.{◌≡◌, List, [], ℕ, ◌+◌, ◌-◌, ◌≤◌, length, replicate, if◌then◌else◌};
ghost use Rattle.std.proofs.lemmas.List.Edits.{sets};
ghost use Rattle.format.specs.declared.WriteAnswer.{WriteAnswer};
ghost use Rattle.format.specs.Answers.{length_answered};
ghost use Rattle.format.specs.Bytes.{SPACE};
ghost use Rattle.format.specs.Limits.{max_header, max_width};
ghost use Rattle.format.specs.DataFiles.{pattern, data_file_said};
ghost use Rattle.format.specs.FileNames.{pattern_name, name_said};
ghost use Rattle.read_files.specs.Parts.{Reach};
ghost use Rattle.data_files.specs.Asked.{stored_name, value_at, NameAsked};

use crate::names;
use format::reason::{Reason, Refused};

// The number of the n-th file, counted from 0.
fn number_at(first: u64, falls: bool, size: u64, n: u64) -> u64
    requires { Reach first falls size n }
    ensures { result ≡ value_at first falls size n }
{
    if falls {
        first - n * size
    } else {
        first + n * size
    }
}

// How many bytes are missing to the width.
fn padding(width: usize, digits: usize) -> usize
    ensures { result ≡ width - digits }
{
    width.saturating_sub(digits)
}

// The byte that a number is padded by.
fn pad_byte(zeros: bool) -> u8
    ensures { result ≡ (if zeros then 48 else SPACE) }
{
    if zeros { b'0' } else { b' ' }
}

// The byte b, so many times.
fn put_repeated(out: &mut [u8], at: usize, b: u8, count: usize) -> usize
    requires { at + count ≤ length out.old }
    ensures place { result ≡ at + count }
    ensures stored { out.new ≡ sets out.old at (replicate count b) }
{
    let end = at + count;
    out[at..end].fill(b);
    end
}

// A number between two texts, padded to the width.
fn put_numbered(
    before: &[u8],
    zeros: bool,
    width: u32,
    value: u64,
    after: &[u8],
    out: &mut [u8],
) -> Result<u64, Refused>
    requires { (length before.now + length after.now ≤ max_header) × (width ≤ max_width) }
    ensures { ◌≡◌ {A = WriteAnswer × List ℕ} (length_answered result, out.new) (stored_name (pattern_name (pattern before.now zeros width after.now) value) out.old) }
{
    let digits = write_parts::decimals::decimal_length(value);
    let pad = padding(width as usize, digits);
    let length = before.len() + pad + digits + after.len();
    if out.len() < length {
        return Err(Reason::LentTooShort.into());
    }
    let from = write_parts::bytes::put_bytes(out, 0, before);
    let first = put_repeated(out, from, pad_byte(zeros), pad);
    let end = write_parts::decimals::put_decimal(out, first, value);
    write_parts::bytes::put_bytes(out, end, after);
    Ok(length as u64)
}

// The name of the n-th file by the descriptor t, which is not LIST.
pub(crate) fn put_said(t: &[u8], n: u64, out: &mut [u8]) -> Result<u64, Refused>
    requires { NameAsked t.now n }
    ensures { ◌≡◌ {A = WriteAnswer × List ℕ} (length_answered result, out.new) (stored_name (name_said (data_file_said t.now) [] n) out.old) }
{
    if !read_files::is_many_form(t) {
        return names::put_name(t, out);
    }
    // it is a right one
    let p = read_files::pattern_in(t).unwrap();
    let value = number_at(p.first, p.falls, p.size, n);
    put_numbered(
        &t[p.from..p.percent],
        p.zeros,
        p.width,
        value,
        &t[p.after..p.to],
        out,
    )
}
