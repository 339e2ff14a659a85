// A name at the front of a lent buffer.
ghost use Rattle.std.specs.Prelude.{◌≡◌, List, ℕ};
ghost use Rattle.format.specs.declared.WriteAnswer.{WriteAnswer};
ghost use Rattle.format.specs.Answers.{length_answered};
ghost use Rattle.data_files.specs.Asked.{stored_name};

use format::reason::{Reason, Refused};

// The length of the name that is put, or 22 where the buffer is too short for it.
pub(crate) fn put_name(name: &[u8], out: &mut [u8]) -> Result<u64, Refused>
    ensures { ◌≡◌ {A = WriteAnswer × List ℕ} (length_answered result, out.new) (stored_name name.now out.old) }
{
    let length = name.len();
    if out.len() < length {
        return Err(Reason::LentTooShort.into());
    }
    write_parts::bytes::put_bytes(out, 0, name);
    Ok(length as u64)
}
