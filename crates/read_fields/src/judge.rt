// One line after line 1: what it is, or why it is refused, for one of the reasons 5 to 12 in order; and the end of the header.
ghost use Rattle.std.specs.Prelude.{◌≡◌, not, ◌||◌, List, ℕ, ◌+◌, ◌≤◌, ◌<◌, nat_lt, length, take, drop, if◌then◌else◌, Result};
ghost use Rattle.std.proofs.Math.Option.{some};
ghost use Rattle.format.specs.Bytes.{every};
ghost use Rattle.format.specs.Limits.{max_axes, max_header};
ghost use Rattle.format.specs.Spaces.{max_space};
ghost use Rattle.format.specs.Refusals.{bad_byte};
ghost use Rattle.format.specs.Reasons.{refusal_number};
ghost use Rattle.format.specs.Pairs.{plain, field_mark, other_line};
ghost use Rattle.format.specs.Fields.{Given, field_count, is_given, dimension, is_repeated, needs_dimension, in_order};
ghost use Rattle.format.specs.Descriptors.{since, space_size_of};
ghost use Rattle.format.specs.Header.{on_pair, on_field, on_kind, judge};
ghost use Rattle.read_fields.specs.declared.state.State.{State};
ghost use Rattle.read_fields.specs.declared.state.Step.{Step};
ghost use Rattle.read_fields.specs.States.{wrong_of, flags, space_for, Known, described, numbered, stepped};

use crate::state::{State, Step};
use format::field;
use format::reason::Reason;
use read_text::lines::Kind;

// Whether a pair is right.
#[tactic(auto, using(crate::proofs::Judging::pair_tests))]
fn on_pair(version: u32, key: &[u8], value: &[u8]) -> Result<(), Reason>
    ensures { refusal_number result ≡ wrong_of (on_pair version key.now value.now) }
{
    if key.is_empty() {
        return Err(Reason::NoMark);
    }
    if version < format::PAIRS_SINCE {
        return Err(Reason::NotInVersion);
    }
    if !read_text::escapes::unescapes(key) {
        return Err(Reason::BadBackslash);
    }
    if !read_text::escapes::unescapes(value) {
        return Err(Reason::BadBackslash);
    }
    Ok(())
}

// Whether dimension is given where the field comes after it.
#[tactic(auto, using(crate::proofs::Judging::axes_by_flags))]
fn is_after_dimension(f: usize, given: &[bool; field::COUNT]) -> bool
    ensures { (gs : List Given) → given.now ≡ flags gs → result ≡ (not (needs_dimension f) || is_given dimension gs) }
{
    !format_values::fields::needs_dimension(f) | given[field::DIMENSION]
}

// Whether the field may come here, by the fields given. No field before space lies in a space.
fn is_in_order(f: usize, given: &[bool; field::COUNT]) -> bool
    ensures { (gs : List Given) → given.now ≡ flags gs → result ≡ in_order f gs }
{
    if f < field::SPACE {
        is_after_dimension(f, given)
    } else if format_values::fields::needs_space(f) {
        is_after_dimension(f, given) & (given[field::SPACE] | given[field::SPACE_DIMENSION])
    } else {
        is_after_dimension(f, given)
    }
}

// Whether the field is given already, or one that says the same: space and space dimension do.
// The fields before space, of which every header has some, come first here, in `is_in_order` and in `space_for`: the compiler then tests once for all three.
fn is_repeated(f: usize, given: &[bool; field::COUNT]) -> bool
    requires { f < field_count }
    ensures { (gs : List Given) → given.now ≡ flags gs → result ≡ is_repeated f gs }
{
    if f < field::SPACE {
        given[f]
    } else if f <= field::SPACE_DIMENSION {
        given[field::SPACE] | given[field::SPACE_DIMENSION]
    } else {
        given[f]
    }
}

// The dimension of the space for the field: 0 for a field before space, whose descriptor does not depend on it.
#[tactic(auto, unfolding(crate::specs::States::space_for))]
fn space_for(f: usize, state: &State) -> u32
    ensures { (gs : List Given) → Known state.now gs → result ≡ space_for f (space_size_of gs) }
{
    if f < field::SPACE {
        0
    } else {
        state.space_size()
    }
}

// The field f with the descriptor t: bad descriptor 11. Right sizes change the sizes.
fn take_field(
    f: usize,
    t: &[u8],
    dimension: u32,
    space: u32,
    state: &mut State,
) -> Result<Step, Reason>
    ensures { dimension ≤ max_axes → space ≤ max_space → length t.now ≤ max_header → ◌≡◌ {A = Result Step ℕ × State} (numbered result, state.new) (stepped (described dimension space f t.now) state.old) }
{
    match read_descriptors::check::check(f, t, dimension, space, &mut state.sizes) {
        Some(said) => Ok(Step::Gives(f, said)),
        None => Err(Reason::BadDescriptor),
    }
}

// Whether the field, with this descriptor, is there only from a later version on: patterns and LIST come later than the field data file.
fn is_too_new(version: u32, f: usize, t: &[u8]) -> bool
    ensures { result ≡ nat_lt version (since f t.now) }
{
    if version < format_values::fields::since(f) {
        return true;
    }
    if f != field::DATA_FILE {
        return false;
    }
    if version < format::MANY_FILES_SINCE {
        return read_files::is_many_form(t);
    }
    false
}

// A known field: not in this version 8, repeated 9, out of order 10, bad descriptor 11.
fn on_known(f: usize, rest: &[u8], state: &mut State) -> Result<Step, Reason>
    requires { f < field_count }
    ensures { (gs : List Given) → Known state.old gs → length rest.now ≤ max_header → ◌≡◌ {A = Result Step ℕ × State} (numbered result, state.new) (stepped (on_field state.old.version gs (some f) rest.now) state.old) }
{
    let t = read_descriptors::place::descriptor_of(f, rest);
    if is_too_new(state.version, f, t) {
        return Err(Reason::NotInVersion);
    }
    if is_repeated(f, &state.given) {
        return Err(Reason::RepeatedField);
    }
    if !is_in_order(f, &state.given) {
        return Err(Reason::OutOfOrder);
    }
    let dimension = state.numbers[field::DIMENSION];
    let space = space_for(f, state);
    take_field(f, t, dimension, space, state)
}

// Each byte of the line is one that it may hold: bad byte 5.
fn plain_first(t: &[u8]) -> Result<(), Reason>
    ensures { refusal_number result ≡ (if every plain t.now then 0 else bad_byte) }
{
    if read_text::bytes::is_plain(t) {
        Ok(())
    } else {
        Err(Reason::BadByte)
    }
}

// The line t of a field whose mark stands at i: a byte that it may not hold 5, unknown 7, not in this version 8, repeated 9, out of order 10, bad descriptor 11.
fn on_field(t: &[u8], i: usize, state: &mut State) -> Result<Step, Reason>
    requires { i + 2 ≤ length t.now }
    ensures { (gs : List Given) → Known state.old gs → length t.now ≤ max_header → ◌≡◌ {A = Result Step ℕ × State} (numbered result, state.new) (stepped (on_kind state.old.version gs t.now (other_line (field_mark (take i t.now) (drop (i + 2) t.now)))) state.old) }
{
    plain_first(t)?;
    match read_text::words::field_named(&t[..i]) {
        Some(f) => on_known(f as usize, &t[i + 2..], state),
        None => Err(Reason::UnknownField),
    }
}

// The line t of a pair whose mark stands at i: a byte that it may not hold 5 before what the pair is refused for.
fn on_pair_line(version: u32, t: &[u8], i: usize) -> Result<(), Reason>
    requires { i + 2 ≤ length t.now }
    ensures { refusal_number result ≡ (if every plain t.now then wrong_of (on_pair version (take i t.now) (drop (i + 2) t.now)) else bad_byte) }
{
    plain_first(t)?;
    on_pair(version, &t[..i], &t[i + 2..])
}

// One line after line 1, by its text, after the fields given, by what is kept of them, where no names follow them: with no mark 6. A right line of sizes changes the sizes.
pub fn judge_line(t: &[u8], state: &mut State) -> Result<Step, Reason>
    ensures { (gs : List Given) → Known state.old gs → length t.now ≤ max_header → ◌≡◌ {A = Result Step ℕ × State} (numbered result, state.new) (stepped (judge state.old.version gs t.now) state.old) }
{
    match read_text::lines::kind_of(t) {
        Kind::Empty => Ok(Step::Closes),
        Kind::Comment => Ok(Step::Passes),
        Kind::Field(i) => on_field(t, i, state),
        Kind::Pair(i) => {
            on_pair_line(state.version, t, i)?;
            Ok(Step::Passes)
        }
        Kind::Neither => {
            plain_first(t)?;
            Err(Reason::NoMark)
        }
    }
}
