// Setting a key in place.
ghost use Rattle.std.specs.Prelude.{◌≡◌, List, ℕ, ◌≤◌, length};
ghost use Rattle.format.specs.declared.SetAnswer.{SetAnswer};
ghost use Rattle.format.specs.Calls.{set_key_call};
ghost use Rattle.format.specs.EntryPoints.{set_key_entry};
ghost use Rattle.format.specs.Room.{Enough, table_entries, table_room, set_room};
ghost use Rattle.set_key.specs.Edits.{set_into};

use format::{Refusal, SetAnswer};
use format_values::refusals;
use read_table::cells::Entry;
use set_pair::Pair;

// The answer of a file of so many bytes and header lines. It tells them of a refused call too, so no result has all of it.
fn answer(refusal: Refusal, length: usize, count: usize) -> SetAnswer
    ensures { ◌≡◌ {A = SetAnswer} result (record { refusal = refusal; length = length; count = count }) }
{
    SetAnswer {
        refusal,
        length: length as u64,
        count: count as u64,
    }
}

// Sets a key to a value in the file in the first `used` bytes of a buffer, whose line table has `count` entries.
fn set_into<E: Entry>(
    buf: &mut [u8],
    used: usize,
    table: &mut [E],
    count: usize,
    pair: &Pair,
) -> SetAnswer
    ensures { ◌≡◌ {A = SetAnswer × (List ℕ × List E)} (result, (buf.new, table.new)) (set_into E.entries E.holding buf.old used table.old count pair.now.key.now pair.now.value.now) }
{
    E::know(table);
    let room = buf.len();
    if room < used {
        return answer(refusals::LENT_TOO_SHORT, used, count);
    }
    match crate::plan::prepare(&buf[..used], room, table, count, pair) {
        Err(refused) => answer(refused.into(), used, count),
        Ok(plan) => {
            set_splice::splice_pair(buf, used, plan.edit, pair);
            read_table::table::shift(table, count, plan.edit);
            answer(refusals::FINE, plan.length, plan.count)
        }
    }
}

// The same for a table of numbers. A refused call alters nothing.
// A table of `MAX_LINES` entries is enough for any file, and a buffer of `used` bytes, two for each byte of key and value, and 4.
pub fn set_key(
    buf: &mut [u8],
    used: usize,
    table: &mut [u32],
    count: usize,
    key: &[u8],
    value: &[u8],
) -> SetAnswer
    ensures call { ◌≡◌ {A = SetAnswer × (List ℕ × List ℕ)} (result, (buf.new, table.new)) (set_key_call buf.old used table.old count key.now value.now) }
    ensures enough { table_entries ≤ length table.old → set_room used key.now value.now ≤ length buf.old → Enough result.refusal }
{
    set_into(buf, used, table, count, &Pair { key, value })
}

// The same for a table in bytes, 4 an entry.
pub fn set_key_in_bytes(
    buf: &mut [u8],
    used: usize,
    table: &mut [u8],
    count: usize,
    key: &[u8],
    value: &[u8],
) -> SetAnswer
    ensures call { ◌≡◌ {A = SetAnswer × (List ℕ × List ℕ)} (result, (buf.new, table.new)) (set_key_entry buf.old used table.old count key.now value.now) }
    ensures enough { table_room ≤ length table.old → set_room used key.now value.now ≤ length buf.old → Enough result.refusal }
{
    set_into(buf, used, table, count, &Pair { key, value })
}
