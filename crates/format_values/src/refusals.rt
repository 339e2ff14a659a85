// Refusals by their numbers. `format` makes the others: `reason` of a reason, `answers` where nothing is refused. What is added to a refusal is added there too.
ghost use Rattle.std.specs.Prelude.{◌≡◌};
ghost use Rattle.format.specs.Refusals.{at_line, refusal};

use format::Refusal;

// Nothing is refused. Only this one spells each member here: the others name those in which they differ.
pub const FINE: Refusal = Refusal { number: 0, line: 0 };

// Refusals whose number is known where they are made; each use proves its own.
pub const LENT_TOO_SHORT: Refusal = Refusal {
    number: format::LENT_TOO_SHORT,
    ..FINE
};

pub const BAD_COORDINATES: Refusal = Refusal {
    number: format::BAD_COORDINATES,
    ..FINE
};

// A refusal at a line, 0 where no line is meant.
pub fn refusal_at(number: u32, line: u32) -> Refusal
    ensures { result ≡ at_line number line }
{
    Refusal {
        number,
        line,
        ..FINE
    }
}

// A refusal that names no line.
pub fn refusal(number: u32) -> Refusal
    ensures { result ≡ refusal number }
{
    refusal_at(number, 0)
}
