// The offset that the key of a sweep says.
ghost use Rattle.std.specs.Prelude.{◌≡◌};
ghost use Rattle.roof_steps.specs.Steps.{number_found};
ghost use Rattle.roof_sweep.specs.Sweeps.{offset_said, offset_of};

// The number that a text of digits alone writes, if it is 0 to 255.
fn read_offset(t: &[u8]) -> Option<u32>
    ensures { result ≡ number_found (offset_said t.now) }
{
    if t.is_empty() {
        return None;
    }
    let mut n: u32 = 0;
    for i in 0..t.len() {
        let b = t[i];
        if b < b'0' || b'9' < b {
            return None;
        }
        n = n * 10 + (b - b'0') as u32;
        if 255 < n {
            return None;
        }
    }
    Some(n)
}

// The offset of a file: what the last pair with the key says.
pub fn find_offset(file: &[u8]) -> Option<u32>
    ensures { result ≡ number_found (offset_of file.now) }
{
    let place = read_lookup::keys::find_key(file, b"utc offset");
    // the look-up's answer is the one that C has
    if !place.found {
        return None;
    }
    let start = place.start as usize;
    read_offset(&file[start..start + place.length as usize])
}
