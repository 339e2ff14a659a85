// Where a descriptor stands in what follows the mark of its field.
ghost use Rattle.std.specs.Prelude.{◌≡◌, ◌-◌, ◌≤◌, length};
ghost use Rattle.format.specs.Descriptors.{from_descriptor, descriptor};

// The descriptor of a field in what follows its mark.
pub fn descriptor_of<'a>(f: usize, rest: &'a [u8]) -> &'a [u8]
    ensures { result.now ≡ descriptor f rest.now }
{
    let from = text_start(f, rest);
    let d = &rest[from..];
    let n = read_text::lines::without_trailing(d);
    &d[..n]
}

// How many bytes stand before the descriptor: in understood fields the spaces and tabs.
pub fn text_start(f: usize, rest: &[u8]) -> usize
    ensures { (result ≡ length rest.now - length (from_descriptor f rest.now)) × (result ≤ length rest.now) }
{
    if format_values::fields::is_understood(f) {
        read_text::lines::leading(rest)
    } else {
        0
    }
}
