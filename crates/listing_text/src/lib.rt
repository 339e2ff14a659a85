// The listing of a file: what its header says, where its data starts, or why it is refused.
#![tactic(auto)]

mod keys;

ghost use Rattle.std.specs.Prelude.{◌≡◌, List, ℕ, ◌≤◌, length};
ghost use Rattle.format.specs.declared.WriteAnswer.{WriteAnswer};
ghost use Rattle.format.specs.Limits.{max_lines, max_listed, max_listing};
ghost use Rattle.format.specs.Listing.{shown_refusal, listing, listing_call};
ghost use Rattle.listing_print.specs.Printed.{Printed};
ghost use Rattle.listing_text.specs.Shown.{Within, reading_text};

use format::{Reading, Refusal, WriteAnswer};
use format_values::refusals;

// The line of a refusal.
fn put_refusal(out: &mut [u8], refusal: Refusal) -> usize
    ensures { Printed 55 out.old 0 (shown_refusal refusal) out.new result }
{
    let a = listing_print::put::put_bytes(out, 0, b"refused ");
    let e = listing_print::put::put_decimal(out, a, refusal.number as u64);
    listing_print::put::put_number(out, e, b" line ", refusal.line as u64)
}

// The lines of a reading; the data starts at `start`. No key stands under LIST, whatever a name looks like.
fn put_reading(file: &[u8], out: &mut [u8], reading: Reading, start: u64) -> usize
    requires { Within file.now 0 reading.fieldlines × (reading.fieldlines ≤ max_lines) × (length file.now ≤ max_listed) × (reading.dimension ≤ length reading.sizes) }
    ensures { Printed max_listing out.old 0 (reading_text file.now reading start) out.new result }
{
    let a = listing_print::head::put_top(out, reading);
    let b = listing_print::head::put_middle(out, a, reading);
    let e = listing_print::head::put_end(out, b, start, reading.extent);
    keys::put_keys(file, out, e, reading.fieldlines)
}

// The whole listing, as far as it fits, and its length.
fn print(file: &[u8], out: &mut [u8]) -> usize
    ensures { Printed max_listing out.old 0 (listing file.now) out.new result }
{
    if format::MAX_LISTED < file.len() {
        return put_refusal(out, refusals::LENT_TOO_SHORT);
    }
    match read_header::read::reading(file) {
        Err(refused) => put_refusal(out, refused.into()),
        Ok(reading) if reading.form == format::DETACHED => put_reading(file, out, reading, 0),
        Ok(reading) => match data_place::place::locate_data(&reading, file, &[], false) {
            Err(reason) => put_refusal(out, reason.at_line(0).into()),
            Ok(located) => put_reading(file, out, reading, located.place.start),
        },
    }
}

// Writes the listing of a file to the front of `out`. Where `out` is too short nothing is written; `MAX_LISTING` bytes are enough for any file.
pub fn listing(file: &[u8], out: &mut [u8]) -> WriteAnswer
    ensures call { ◌≡◌ {A = WriteAnswer × List ℕ} (result, out.new) (listing_call file.now out.old) }
    ensures enough { length (listing file.now) ≤ max_listing }
    ensures within { result.length ≤ length out.old }
{
    let n = print(file, &mut []);
    if out.len() < n {
        return WriteAnswer {
            refusal: refusals::LENT_TOO_SHORT,
            length: 0,
        };
    }
    print(file, out);
    WriteAnswer {
        refusal: refusals::FINE,
        length: n as u64,
    }
}
