// Where a key's line goes.
ghost use Rattle.std.specs.Prelude.{◌≡◌, ◌+◌, ◌≤◌, ◌<◌, List, length};
ghost use Rattle.format.specs.Limits.{max_header};
ghost use Rattle.format.specs.Lines.{Line};
ghost use Rattle.format.specs.Fields.{Given};
ghost use Rattle.format.specs.Header.{Entry, accepted, header};
ghost use Rattle.read_header.specs.Accepted.{Fielded};
ghost use Rattle.set_key.specs.Edits.{FirstAt, Placed, text_length};

use read_lines::LineEnds;
use read_table::table::Edit;
use set_pair::Pair;

// A new line of m bytes and an ending after line 1. Its text ends up before the ending of line 1, which stands on both sides of it: the edit's `to` is
// below its `from`.
fn after_first(file: &[u8], m: usize) -> Edit
    requires some { 0 < length file.now }
    requires short { m ≤ max_header + 1 }
    ensures { FirstAt file.now m result }
{
    match read_lines::line_at(file, 0) {
        Some(LineEnds { text_end, next }) => Edit {
            from: next,
            to: text_end,
            front: next + m,
            more: 1,
        },
        None => Edit {
            from: 0,
            to: 0,
            front: m,
            more: 1,
        },
    }
}

// The edit that puts the pair into a file whose header has so many lines before the names under LIST: its key's last line is replaced, or there is a
// new one after line 1.
pub(crate) fn find_edit(file: &[u8], lines: u32, pair: &Pair) -> Edit
    requires { Fielded file.now lines }
    ensures { (es : List Entry) (gs : List Given) (ls : List Line) → header file.now ≡ accepted es gs ls → Placed pair.now.key.now es (text_length pair.now.key.now pair.now.value.now) result }
{
    let m = pair.length();
    match read_lookup::keys::find_value_in(file, pair.key, lines) {
        None => after_first(file, m),
        Some(value) => {
            let start = value.start as usize;
            let from = start - (set_pair::escaped_length(pair.key) + 2);
            Edit {
                from,
                to: start + value.length as usize,
                front: from + m,
                more: 0,
            }
        }
    }
}
