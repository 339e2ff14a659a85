// Numbers as decimal text, and how many digits they have.
ghost use Rattle.std.specs.Prelude.{◌≡◌, ◌+◌, ◌≤◌, ◌<◌, length};
ghost use Rattle.std.proofs.lemmas.List.Edits.{sets};
ghost use Rattle.format.specs.Writer.{decimal};
ghost use Rattle.write_parts.specs.Stored.{digits};

// The functions below come in sizes, each made of the next smaller one: a const argument that is half of another is not to be had.

// The digits of a number below 100, with a zero in front where it has only one.
fn put_two(out: &mut [u8], at: usize, n: u64) -> usize
    requires { (n < 100) × (at + 2 ≤ length out.old) }
    ensures place { result ≡ at + 2 }
    ensures stored { out.new ≡ sets out.old at (digits 2 n) }
{
    out[at] = (48 + n / 10) as u8;
    out[at + 1] = (48 + n % 10) as u8;
    at + 2
}

// The same for four digits, by halves.
fn put_four(out: &mut [u8], at: usize, n: u64) -> usize
    requires { (n < 10000) × (at + 4 ≤ length out.old) }
    ensures place { result ≡ at + 4 }
    ensures stored { out.new ≡ sets out.old at (digits 4 n) }
{
    let o = put_two(out, at, n / 100);
    put_two(out, o, n % 100)
}

// The same for eight digits.
fn put_eight(out: &mut [u8], at: usize, n: u64) -> usize
    requires { (n < 100000000) × (at + 8 ≤ length out.old) }
    ensures place { result ≡ at + 8 }
    ensures stored { out.new ≡ sets out.old at (digits 8 n) }
{
    let o = put_four(out, at, n / 10000);
    put_four(out, o, n % 10000)
}

// A number of up to four digits.
fn put_to_4(out: &mut [u8], at: usize, n: u64) -> usize
    requires { (n < 10000) × (at + length (decimal n) ≤ length out.old) }
    ensures place { result ≡ at + length (decimal n) }
    ensures stored { out.new ≡ sets out.old at (decimal n) }
{
    match n {
        0..=9 => {
            out[at] = (48 + n) as u8;
            at + 1
        }
        10..=99 => put_two(out, at, n),
        100..=999 => {
            out[at] = (48 + n / 100) as u8;
            put_two(out, at + 1, n % 100)
        }
        _ => put_four(out, at, n),
    }
}

// A number of up to eight digits.
fn put_to_8(out: &mut [u8], at: usize, n: u64) -> usize
    requires { (n < 100000000) × (at + length (decimal n) ≤ length out.old) }
    ensures place { result ≡ at + length (decimal n) }
    ensures stored { out.new ≡ sets out.old at (decimal n) }
{
    if n < 10000 {
        put_to_4(out, at, n)
    } else {
        let o = put_to_4(out, at, n / 10000);
        put_four(out, o, n % 10000)
    }
}

// A number of up to twelve digits.
fn put_to_12(out: &mut [u8], at: usize, n: u64) -> usize
    requires { (n < 1000000000000) × (at + length (decimal n) ≤ length out.old) }
    ensures place { result ≡ at + length (decimal n) }
    ensures stored { out.new ≡ sets out.old at (decimal n) }
{
    if n < 100000000 {
        put_to_8(out, at, n)
    } else {
        let o = put_to_4(out, at, n / 100000000);
        put_eight(out, o, n % 100000000)
    }
}

// A number.
pub fn put_decimal(out: &mut [u8], at: usize, n: u64) -> usize
    requires { at + length (decimal n) ≤ length out.old }
    ensures place { (result ≡ at + length (decimal n)) × (result ≤ at + 20) }
    ensures stored { out.new ≡ sets out.old at (decimal n) }
{
    if n < 100000000 {
        put_to_8(out, at, n)
    } else {
        let o = put_to_12(out, at, n / 100000000);
        put_eight(out, o, n % 100000000)
    }
}

// How many digits a number of up to four has.
fn length_to_4(n: u64) -> usize
    requires { n < 10000 }
    ensures digits { result ≡ length (decimal n) }
    ensures few { result ≤ 4 }
{
    match n {
        0..=9 => 1,
        10..=99 => 2,
        100..=999 => 3,
        _ => 4,
    }
}

// The same for up to eight digits.
fn length_to_8(n: u64) -> usize
    requires { n < 100000000 }
    ensures digits { result ≡ length (decimal n) }
    ensures few { result ≤ 8 }
{
    if n < 10000 {
        length_to_4(n)
    } else {
        length_to_4(n / 10000) + 4
    }
}

// The same for up to twelve digits.
fn length_to_12(n: u64) -> usize
    requires { n < 1000000000000 }
    ensures digits { result ≡ length (decimal n) }
    ensures few { result ≤ 12 }
{
    if n < 100000000 {
        length_to_8(n)
    } else {
        length_to_4(n / 100000000) + 8
    }
}

// The same for any number.
pub fn decimal_length(n: u64) -> usize
    ensures digits { result ≡ length (decimal n) }
    ensures few { result ≤ 20 }
{
    if n < 100000000 {
        length_to_8(n)
    } else {
        length_to_12(n / 100000000) + 8
    }
}
