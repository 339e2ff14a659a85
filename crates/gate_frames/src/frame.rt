// A frame, read part by part from its front.
ghost use Rattle.std.specs.Prelude.{◌≡◌, ◌↔◌, ◌+◌, ◌-◌, ◌*◌, ℕ, List, [], Option, Some, None, IsTrue, IsNone, IsOk, IfSome, IfErr, option_map};
ghost use Rattle.gate_frames.specs.declared.fault.Stop.TheVariants.{Malformed};
ghost use Rattle.gate_frames.specs.Frames.{front, after, next_number};

use crate::fault::Stop;
use format::Refusal;
use std::marker::Model;

// What is left of a frame; none once a part went past its end. From there on a number is 0 and a run is empty.
#[derive(Drop)]
pub struct Frame<'a> {
    rest: Option<&'a [u8]>,
}

impl<'a> Model for Frame<'a> {
    ghost Value = { Option (List ℕ) };

    ghost view = { λ frame. option_map (λ rest. rest.now) frame.rest };
}

impl<'a> Frame<'a> {
    pub fn new(bytes: &'a [u8]) -> Frame<'a>
        ensures { result ≡ Some bytes.now }
    {
        Frame { rest: Some(bytes) }
    }

    // The next bytes, so many; none where they pass the end.
    pub fn take(&mut self, n: usize) -> &'a [u8]
        ensures taken { result.now ≡ front n self.old }
        ensures left { self.new ≡ after n self.old }
    {
        match self.rest.and_then(|rest| rest.split_at_checked(n)) {
            Some((taken, rest)) => {
                self.rest = Some(rest);
                taken
            }
            None => {
                self.rest = None;
                &[]
            }
        }
    }

    pub fn number(&mut self) -> u32
        ensures number { result ≡ next_number self.old }
        ensures left { self.new ≡ after 4 self.old }
    {
        match self.take(4).first_chunk() {
            Some(&bytes) => u32::from_le_bytes(bytes),
            None => 0,
        }
    }

    pub fn wide(&mut self) -> u64
        ensures number { result ≡ next_number self.old + 4294967296 * next_number (after 4 self.old) }
        ensures left { self.new ≡ after 4 (after 4 self.old) }
    {
        let low = self.number() as u64;
        low + 4294967296 * self.number() as u64
    }

    pub fn run(&mut self) -> &'a [u8]
        ensures bytes { result.now ≡ front (next_number self.old) (after 4 self.old) }
        ensures left { self.new ≡ after (next_number self.old) (after 4 self.old) }
    {
        let length = self.number() as usize;
        self.take(length)
    }

    // The bytes of a text, none where it is absent.
    pub fn text(&mut self) -> Option<&'a [u8]>
        ensures absent { IsNone result ↔ (next_number self.old ≡ 0) }
        ensures bytes { IfSome result (λ text. text.now ≡ front (next_number self.old - 1) (after 4 self.old)) }
        ensures left { self.new ≡ after (next_number self.old - 1) (after 4 self.old) }
    {
        match self.number() {
            0 => None,
            above => Some(self.take(above as usize - 1)),
        }
    }

    // The number and the line. The byte is 0 as long as refusals have none.
    pub fn refusal(&mut self) -> Refusal
        ensures number { result.number ≡ next_number self.old }
        ensures line { result.line ≡ next_number (after 4 self.old) }
        ensures left { self.new ≡ after 4 (after 4 (after 4 self.old)) }
    {
        let refusal = Refusal {
            number: self.number(),
            line: self.number(),
        };
        self.number();
        refusal
    }

    // Whether a part went past the end.
    pub fn is_past_end(&self) -> bool
        ensures { IsTrue result ↔ (self.now ≡ None) }
    {
        self.rest.is_none()
    }

    // A frame that is read to its end fits; else the input does not.
    pub fn finish(&self) -> Result<(), Stop>
        ensures fits { IsOk result ↔ (self.now ≡ Some []) }
        ensures malformed { IfErr result (λ stop. stop ≡ Malformed) }
    {
        match self.rest {
            Some([]) => Ok(()),
            _ => Err(Stop::Malformed),
        }
    }
}
