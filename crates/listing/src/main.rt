// Lists the file on standard input: its reading and the place of its data, or why it is refused.
#![tactic(auto)]

ghost use Rattle.std.specs.Prelude.{◌≤◌, IfOk, length};

use std::io::{self, ErrorKind, Read};

// A byte more than is listed, so that a longer file is told.
const FILE: usize = format::MAX_LISTED + 1;

// Reads to the front of the buffer until it is full or the input ends; how many bytes there were.
fn read_full(rt: &impl Input, buffer: &mut [u8]) -> io::Result<usize>
    ensures within { IfOk result (λ n. n ≤ length buffer.new) }
{
    let mut reader = rt.reader();
    let mut n: usize = 0;
    for _ in 0..u64::MAX {
        if n == buffer.len() {
            break;
        }
        match reader.read(&mut buffer[n..]) {
            Ok(0) => break,
            Ok(more) => n += more,
            Err(e) if e.kind() == ErrorKind::Interrupted => {}
            Err(e) => return Err(e),
        }
    }
    Ok(n)
}

fn main(rt: HostRuntime) -> io::Result<()> {
    let mut file = [0u8; FILE];
    let n = read_full(&rt, &mut file)?;
    // enough for any listing, as `listing_text::listing` ensures
    let mut out = [0u8; format::MAX_LISTING];
    let answer = listing_text::listing(&file[..n], &mut out);
    rt.write_all(&out[..answer.length as usize])
}
