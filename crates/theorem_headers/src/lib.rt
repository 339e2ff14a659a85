// A header that is written with its orientation is read back (W2), of the definitions that the header writer and the readers are proved against.
#![tactic(auto)]

ghost use Rattle.theorem_headers.specs.HeadersBack.{HeadersReadBack};

// Whatever the header writer accepts is read back as it was given.
pub fn headers_read_back() -> u64
    ensures { HeadersReadBack }
{
    0
}
