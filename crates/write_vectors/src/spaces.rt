// The name of a space.
ghost use Rattle.std.specs.Prelude.{◌≡◌, ◌+◌, ◌≤◌, ◌<◌, length};
ghost use Rattle.std.proofs.lemmas.List.Edits.{sets};
ghost use Rattle.format.specs.HeaderWriter.{space_text};
ghost use Rattle.write_vectors.specs.Stored.{space_room};

// The full name of a space.
fn name(space: usize) -> &'static [u8]
    requires { space < 12 }
    ensures is { result.now ≡ space_text space }
    ensures short { length result.now ≤ space_room }
{
    match space {
        0 => b"right-anterior-superior",
        1 => b"left-anterior-superior",
        2 => b"left-posterior-superior",
        3 => b"right-anterior-superior-time",
        4 => b"left-anterior-superior-time",
        5 => b"left-posterior-superior-time",
        6 => b"scanner-xyz",
        7 => b"scanner-xyz-time",
        8 => b"3D-right-handed",
        9 => b"3D-left-handed",
        10 => b"3D-right-handed-time",
        _ => b"3D-left-handed-time",
    }
}

// A space by its full name.
pub fn put_space(out: &mut [u8], at: usize, space: usize) -> usize
    requires { (space < 12) × (at + space_room ≤ length out.old) }
    ensures place { result ≡ at + length (space_text space) }
    ensures stored { out.new ≡ sets out.old at (space_text space) }
    ensures long { result ≤ at + space_room }
{
    write_parts::bytes::put_bytes(out, at, name(space))
}
