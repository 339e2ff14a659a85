// A list of settings, each lent what the one before it left.
use crate::case::Extent;
use format::SetAnswer;
use gate_frames::frame::Frame;

// Runs the settings of a run. What the last one leaves, and whether all answers were right.
pub fn run(buffer: &mut [u8], table: &mut [u32], first: Extent, settings: &[u8]) -> (Extent, bool) {
    let mut frame = Frame::new(settings);
    let mut left = first;
    let mut right = true;
    for _ in 0..frame.number() {
        let key = frame.run();
        let value = frame.run();
        let expected = SetAnswer {
            refusal: frame.refusal(),
            length: frame.wide(),
            count: frame.wide(),
        };
        let answer = set_key::set::set_key(buffer, left.used, table, left.count, key, value);
        right &= answer == expected;
        left = Extent {
            used: answer.length as usize,
            count: answer.count as usize,
        };
    }
    (left, right)
}
