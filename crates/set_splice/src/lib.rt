// One edit of a file in a buffer: a pair's text put into it.
#![tactic(auto)]

ghost use Rattle.std.specs.Prelude.{◌≡◌, ◌+◌, ◌-◌, ◌≤◌, length, take};
ghost use Rattle.format.specs.Settings.{pair_text, refilled};
ghost use Rattle.set_splice.specs.Edited.{edited};

mod moves;

use read_table::table::Edit;
use set_pair::Pair;

// Puts the pair's text at its place in the file of the first `used` bytes. What a shorter file no longer takes becomes 0.
pub fn splice_pair(buf: &mut [u8], used: usize, edit: Edit, pair: &Pair)
    requires from { edit.from ≤ used }
    requires to { edit.to ≤ used }
    requires used { used ≤ length buf.old }
    requires text { edit.front ≡ edit.from + length (pair_text pair.now.key.now pair.now.value.now) }
    requires room { edit.front + (used - edit.to) ≤ length buf.old }
    ensures { buf.new ≡ refilled buf.old used (edited (take used buf.old) edit.from edit.to (pair_text pair.now.key.now pair.now.value.now)) }
{
    let rest = used - edit.to;
    moves::slide(buf, edit.front, edit.to, rest);
    pair.put(buf, edit.from);
    let end = edit.front + rest;
    if end < used {
        buf[end..used].fill(0);
    }
}
