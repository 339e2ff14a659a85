// Tests on the bytes of a text.
ghost use Rattle.std.specs.Prelude.{◌≡◌};
ghost use Rattle.format.specs.DataFiles.{has_percent};
ghost use Rattle.read_files.specs.Parts.{begins};

// Whether s begins with the byte b.
pub fn begins(s: &[u8], b: u8) -> bool
    ensures { result ≡ begins b s.now }
{
    if s.len() == 0 {
        return false;
    }
    s[0] == b
}

// Whether a `%` stands in the text.
pub fn has_percent(t: &[u8]) -> bool
    ensures { result ≡ has_percent t.now }
{
    read_text::bytes::find_byte(t, b'%') != t.len()
}
