// The lines of the keys: each pair of the header that is the last one with its key, as its texts stand in the file. Two keys are the same
// where their texts are, since a key has one escaped text.
ghost use Rattle.std.specs.Prelude.{◌≡◌, ◌+◌, ◌≤◌, length, take, drop};
ghost use Rattle.format.specs.Limits.{max_lines, max_listed, max_reading, max_keys, max_listing};
ghost use Rattle.listing_print.specs.Printed.{Printed};
ghost use Rattle.listing_text.specs.Shown.{pair_in, is_key, is_later, key_text, shown_texts, shown_lines, lines_from, Within};

use read_lines::LineEnds;
use read_text::lines::Kind;

// Whether a line is that of a pair whose key has this text.
fn is_key(t: &[u8], key: &[u8]) -> bool
    ensures { result ≡ is_key key.now (pair_in t.now) }
{
    match read_text::lines::kind_of(t) {
        Kind::Pair(i) => key == &t[..i],
        _ => false,
    }
}

// Whether one of `count` lines from `from` on is that of a pair whose key has this text.
fn is_later(file: &[u8], key: &[u8], from: usize, count: u32) -> bool
    requires { Within file.now from count }
    ensures { result ≡ is_later key.now (lines_from file.now from count) }
{
    let mut at = from;
    for _ in 0..count {
        let Some(LineEnds { text_end, next }) = read_lines::line_at(file, at) else {
            return false;
        };
        if is_key(&file[at..text_end], key) {
            return true;
        }
        at = next;
    }
    false
}

// The line of a pair, of whose text the key is the first i bytes.
fn put_key(out: &mut [u8], at: usize, t: &[u8], i: usize) -> usize
    requires { (i + 2 ≤ length t.now) × (at + (length t.now + 4) ≤ max_listing) }
    ensures { Printed (length t.now + 4) out.old at (key_text (take i t.now) (drop (i + 2) t.now)) out.new result }
{
    let a = listing_print::put::put_bytes(out, at, b"key ");
    let e = listing_print::put::put_bytes(out, a, &t[..i]);
    listing_print::put::put_line(out, e, b"=", &t[i + 2..])
}

// What a line shows; `left` lines from `next` on come after it.
fn put_item(file: &[u8], out: &mut [u8], at: usize, t: &[u8], next: usize, left: u32) -> usize
    requires { Within file.now next left × (at + (length t.now + 4) ≤ max_listing) }
    ensures { Printed (length t.now + 4) out.old at (shown_texts (pair_in t.now) (lines_from file.now next left)) out.new result }
{
    match read_text::lines::kind_of(t) {
        Kind::Pair(i) => {
            if is_later(file, &t[..i], next, left) {
                at
            } else {
                put_key(out, at, t, i)
            }
        }
        _ => at,
    }
}

// What the first `count` lines of the file show.
pub(crate) fn put_keys(file: &[u8], out: &mut [u8], start: usize, count: u32) -> usize
    requires { Within file.now 0 count × (count ≤ max_lines) × (length file.now ≤ max_listed) × (start ≤ max_reading) }
    ensures { Printed max_keys out.old start (shown_lines (lines_from file.now 0 count)) out.new result }
{
    let mut o = start;
    let mut at: usize = 0;
    for left in (0..count).rev() {
        let Some(LineEnds { text_end, next }) = read_lines::line_at(file, at) else {
            return o;
        };
        o = put_item(file, out, o, &file[at..text_end], next, left);
        at = next;
    }
    o
}
