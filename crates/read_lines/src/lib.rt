// The line at a place of a file.
#![tactic(auto)]

ghost use Rattle.std.specs.Prelude.{◌≡◌, ◌<◌, ◌≤◌, min, length};
ghost use Rattle.format.specs.Limits.{max_header};
ghost use Rattle.read_lines.specs.Spans.{SpanIs};

// Where the text of a line ends, and where the next line starts.
#[derive(Clone, Copy)]
pub struct LineEnds {
    pub text_end: usize,
    pub next: usize,
}

// The line that starts at `at`; none where it ends past the limit of a header. Looks at no byte past the limit.
pub fn line_at(file: &[u8], at: usize) -> Option<LineEnds>
    requires { (at < length file.now) × (at ≤ max_header) }
    ensures { SpanIs file.now at result }
{
    let to = limit(file.len());
    let n = read_text::bytes::find_byte(&file[at..to], b'\n');
    let e = at + n;
    if e < to {
        return Some(LineEnds {
            text_end: at + read_text::lines::without_cr(&file[at..e]),
            next: e + 1,
        });
    }
    if to < file.len() {
        return None;
    }
    Some(LineEnds {
        text_end: to,
        next: to,
    })
}

// The end of what is looked at: the file's or the limit.
fn limit(n: usize) -> usize
    ensures { result ≡ min n max_header }
{
    if n < format::MAX_HEADER {
        n
    } else {
        format::MAX_HEADER
    }
}
