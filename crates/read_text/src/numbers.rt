// Numbers in a text: one, or one for each axis.
ghost use Rattle.std.specs.Prelude.{◌≡◌, ◌≤◌, length};
ghost use Rattle.format.specs.Words.{number, words};
ghost use Rattle.read_text.specs.Numbers.{number_answer, size_answer, first_word, sizes_in, sizes_answer};

// The sizes, and whether they are as many as the dimension and each in its range; if not, all are 0.
#[derive(Clone, Copy)]
pub struct Sizes {
    pub fine: bool,
    pub sizes: [u64; format::AXES],
}

// The least number that is above the limit.
const PAST_SIZE: u64 = format::MAX_SIZE + 1;

// The number that the digits of s write, of any length. It is cut to `PAST_SIZE`, so that no run of digits overflows.
pub fn read_number(s: &[u8]) -> Option<u64>
    ensures { result ≡ number_answer (number s.now) }
{
    if s.is_empty() {
        return None;
    }
    let mut v: u64 = 0;
    for b in s {
        if !b.is_ascii_digit() {
            return None;
        }
        v = (v * 10 + (*b - b'0') as u64).min(PAST_SIZE);
    }
    if v < PAST_SIZE { Some(v) } else { None }
}

// Where a word stands: from a byte to before another. Both are the same where there is no word.
#[derive(Clone, Copy)]
pub struct Place {
    pub from: usize,
    pub to: usize,
}

// How long the word at the front is: up to the next space or tab, or to the end.
pub fn word_length(s: &[u8]) -> usize
    ensures { (result ≡ length (first_word s.now)) × (result ≤ length s.now) }
{
    s.iter()
        .position(|b| crate::lines::is_blank(*b))
        .unwrap_or(s.len())
}

// A size, or 0 where the text is none.
pub fn read_size(s: &[u8]) -> u64
    ensures { result ≡ size_answer (number s.now) }
{
    read_number(s).unwrap_or(0)
}

// As many numbers as the dimension, parted by spaces and tabs, each 1 to `MAX_SIZE`; 0 past them.
pub fn sizes_in(s: &[u8], dimension: usize) -> Option<[u64; format::AXES]>
    ensures { result ≡ sizes_in dimension (words s.now) }
{
    if format::AXES < dimension {
        return None;
    }
    // a `while`, since it goes on by a blank or by a word
    let mut at: usize = 0;
    let mut n: usize = 0;
    let mut v = [0u64; format::AXES];
    while at < s.len() {
        let size = word_length(&s[at..]);
        if size == 0 {
            at += 1;
        } else {
            let e = at + size;
            let x = read_size(&s[at..e]);
            if x == 0 {
                return None;
            }
            if n == dimension {
                return None;
            }
            v[n] = x;
            n += 1;
            at = e;
        }
    }
    if n == dimension { Some(v) } else { None }
}

// The same with a flag.
pub fn read_sizes(s: &[u8], dimension: usize) -> Sizes
    ensures { result ≡ sizes_answer dimension (words s.now) }
{
    match sizes_in(s, dimension) {
        Some(sizes) => Sizes { fine: true, sizes },
        None => Sizes {
            fine: false,
            sizes: [0u64; format::AXES],
        },
    }
}
