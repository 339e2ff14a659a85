// The lines of a header by their numbers.
ghost use Rattle.std.specs.Prelude.{◌≡◌};
ghost use Rattle.data_files.specs.Asked.{Ahead, line_text};

use read_lines::LineEnds;

// Where the line after `count` others starts.
fn start_of(file: &[u8], count: u64) -> usize
    requires { Ahead file.now 0 count (line_text file.now count) }
    ensures { Ahead file.now result 0 (line_text file.now count) }
{
    let mut at: usize = 0;
    for _ in 0..count {
        let Some(LineEnds { next, .. }) = read_lines::line_at(file, at) else {
            return at;
        };
        at = next;
    }
    at
}

// The text of the line after `count` others.
pub(crate) fn text_of<'a>(file: &'a [u8], count: u64) -> &'a [u8]
    requires { Ahead file.now 0 count (line_text file.now count) }
    ensures { result.now ≡ line_text file.now count }
{
    let at = start_of(file, count);
    match read_lines::line_at(file, at) {
        Some(LineEnds { text_end, .. }) => &file[at..text_end],
        None => &file[..0],
    }
}
