// Steps of a counter of 32 bits that wraps, over rows of samples, each of which begins with a stamp of the counter.
#![tactic(auto)]

ghost use Rattle.std.specs.Prelude.{◌≡◌, ℕ, ◌+◌, ◌*◌, ◌<◌, ◌≤◌, length, pos, slice_index_or, IfSome};
ghost use Rattle.roof_steps.specs.Steps.{stamp_of, step_of, is_right, stamps, first_wrong, number_found, wrong_left};
ghost use Rattle.roof_steps.specs.StepLaws.{StepLaws};
ghost use Rattle.roof_steps.specs.StepTrials.{StepTrials};

use lent_lists::Lent;

// The step from one stamp to the next, around the wrap.
fn step(before: u32, after: u32) -> u32
    ensures { result ≡ step_of before after }
{
    after.wrapping_sub(before)
}

// Whether a step is from 1 to the largest.
fn is_right(largest: u32, s: u32) -> bool
    ensures { result ≡ is_right largest s }
{
    (1 <= s) & (s <= largest)
}

// The stamp that sample k is.
fn stamp_at<C: Lent>(samples: &[C], k: usize) -> u32
    requires { k < length (C.samples samples.now) }
    ensures { result ≡ stamp_of (slice_index_or (C.samples samples.now) k (pos 0)) }
{
    (C::bits_at(samples, k) % 4294967296) as u32
}

// How many rows are looked at before one test of all their steps.
const BLOCK: usize = 8;

// The stamp of the last row of a block, if the steps to all its rows are right: the rows of m samples each from row `from` on, after a row with the stamp `before`.
// No step ends the loop, so that the compiler makes one piece of code of all eight.
fn pass_block<C: Lent>(
    samples: &[C],
    m: usize,
    largest: u32,
    from: usize,
    before: u32,
) -> Option<u32>
    requires m_positive { 1 ≤ m }
    requires samples_there { (from + 8) * m ≤ length (C.samples samples.now) }
    ensures { (rows : ℕ) → from + 8 ≤ rows → IfSome result (λ last. wrong_left largest rows m (C.samples samples.now) from before ≡ wrong_left largest rows m (C.samples samples.now) (from + 8) last) }
{
    let _length = samples.len();
    let mut right = true;
    let mut last = before;
    for j in 0..BLOCK {
        let after = stamp_at(samples, (from + j) * m);
        right = right & is_right(largest, step(last, after));
        last = after;
    }
    if right { Some(last) } else { None }
}

// The first row with a wrong step, from row `from` on, after a row with the stamp `stamp`.
fn wrong_from<C: Lent>(
    samples: &[C],
    rows: usize,
    m: usize,
    largest: u32,
    from: usize,
    stamp: u32,
) -> Option<usize>
    requires m_positive { 1 ≤ m }
    requires samples_there { rows * m ≤ length (C.samples samples.now) }
    requires from_within { from ≤ rows }
    ensures { result ≡ number_found (wrong_left largest rows m (C.samples samples.now) from stamp) }
{
    let _length = samples.len();
    let mut before = stamp;
    for i in from..rows {
        let after = stamp_at(samples, i * m);
        if !is_right(largest, step(before, after)) {
            return Some(i);
        }
        before = after;
    }
    None
}

// The first of `rows` rows of m samples each with a wrong step from the row before it. Blocks of rows are passed while all their steps are right.
pub fn wrong_row<C: Lent>(samples: &[C], rows: usize, m: usize, largest: u32) -> Option<usize>
    requires positive { (1 ≤ rows) × (1 ≤ m) }
    requires samples_there { rows * m ≤ length (C.samples samples.now) }
    ensures { result ≡ number_found (first_wrong largest (stamps rows m (C.samples samples.now))) }
{
    let mut before = stamp_at(samples, 0);
    let mut i: usize = 1;
    // a turn is a block of rows, and none where one of its steps is wrong
    while BLOCK <= rows - i {
        match pass_block(samples, m, largest, i, before) {
            Some(last) => before = last,
            None => break,
        }
        i += BLOCK;
    }
    wrong_from(samples, rows, m, largest, i, before)
}

// The laws that make the definitions believable hold.
pub fn step_laws() -> u64
    ensures { StepLaws }
{
    0
}

// So do the trials by computation.
pub fn step_trials() -> u64
    ensures { StepTrials }
{
    0
}
