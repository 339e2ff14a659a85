// Runs the cases of standard input through the listing of a file. The frame and what is printed are those of crate `gate_frames`.
//
// A case has at most 147,456 bytes:
//   0    the room: how many bytes of the buffer are lent, at most 70,144
//   4    the refusal by the call itself, zeros where it accepts; a file that is refused is listed as such
//   16   a run, the file; a run, its listing, empty with a refusal
//
// The buffer is filled before the call; every byte past the listing must still be so, those past the room as well.
//
// The parts of a case: 1 the answer, 2 the buffer.
// Where the input does not fit the frame the run ends with the line `malformed`.
#![tactic(auto)]

use format::WriteAnswer;
use gate_frames::fault::{Fault, check};
use gate_frames::frame::Frame;
use gate_frames::{lent, walk};
use std::io;

// The most bytes of a case.
const CASE: usize = 147456;

// The bytes of the buffer: more than any listing has.
const ROOM: usize = format::MAX_LISTING + 33;

// What the bytes of the buffer are before the call.
const UNTOUCHED: u8 = 165;

#[derive(Clone, Copy)]
enum Part {
    Answer = 1,
    Buffer = 2,
}

impl From<Part> for Fault {
    fn from(part: Part) -> Fault {
        Fault::Part(part as u32)
    }
}

fn judge(case: &[u8]) -> Result<(), Fault> {
    let mut frame = Frame::new(case);
    let room = frame.number() as usize;
    let refusal = frame.refusal();
    let file = frame.run();
    let text = frame.run();
    frame.finish()?;
    let mut out = [UNTOUCHED; ROOM];
    let answer = listing_text::listing(file, lent::first(&mut out, room));
    let expected = WriteAnswer {
        refusal,
        length: text.len() as u64,
    };
    check(answer == expected, Part::Answer)?;
    check(lent::holds(&out, text, UNTOUCHED), Part::Buffer)
}

fn main(rt: HostRuntime) -> io::Result<()> {
    walk::run(&rt, &mut [0u8; CASE], judge)
}
