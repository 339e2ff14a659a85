// Text samples: checked, and decoded into a lent list.
#![tactic(auto)]

mod bounds;
mod reader;
mod short;

ghost use Rattle.std.specs.Prelude.{◌≡◌};
ghost use Rattle.std.proofs.lemmas.List.Edits.{sets};
ghost use Rattle.format.specs.Reasons.{refusal_number};
ghost use Rattle.format.specs.Samples.{text_samples};
ghost use Rattle.lent_numbers.specs.Widths.{Width, kind_by};
ghost use Rattle.data_text.specs.Tokens.{Divides, samples_in};

use crate::bounds::Bounds;
use format::reason::Reason;
use lent_lists::Lent;

// Reads n samples, `step` in each turn. The last of a turn goes to dst, where there is room, at the number of samples before the turn.
// The pass that checks and the one that stores share this call of `token`: the compiler then inlines it, and what is lent to it stays in registers, as do the
// bounds, since they are copied.
fn read<C: Lent>(
    s: &[u8],
    n: usize,
    step: usize,
    bounds: &Bounds,
    dst: &mut [C],
) -> Result<(), Reason>
    requires { Divides step n }
    ensures refusal { refusal_number result ≡ (samples_in bounds.now.low bounds.now.high n s.now).number }
    ensures stored { step ≡ 1 → dst.new ≡ C.lent (sets (C.samples dst.old) 0 (samples_in bounds.now.low bounds.now.high n s.now).seen) dst.old }
{
    let copied = *bounds;
    let room = C::entries(dst);
    let mut at = reader::skip(s, 0);
    let mut v: i64 = 0;
    let mut k: usize = 0;
    // a turn is `step` samples
    while k < n {
        reader::token(&s, &mut at, step, &copied, &mut v).result()?;
        if k < room {
            C::put(dst, k, v);
        }
        k += step;
    }
    Ok(())
}

// The refusal that n samples come to: of 20 and 21 the one that is met first. All are read in one turn, and none is stored.
pub fn check(s: &[u8], n: usize, w: usize, signed: bool) -> Result<(), Reason>
    ensures { Width w → refusal_number result ≡ (text_samples (kind_by signed) w n s.now).number }
{
    read::<u8>(s, n, n, &Bounds::of(w, signed), &mut [])
}

// The samples up to the first that is refused, to the front of dst as far as there is room.
pub fn fill<C: Lent>(s: &[u8], n: usize, w: usize, signed: bool, dst: &mut [C])
    ensures { Width w → dst.new ≡ C.lent (sets (C.samples dst.old) 0 (text_samples (kind_by signed) w n s.now).seen) dst.old }
{
    let _checked = read(s, n, 1, &Bounds::of(w, signed), dst);
}
