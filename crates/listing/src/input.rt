// The parts of an input.
ghost use Rattle.std.specs.Prelude.{◌≡◌, ◌++◌, ◌∷◌, ◌≤◌, ◌==◌, MatchOption, position, ℕ, List};
ghost use Rattle.plays.specs.declared.mode.Mode.{Mode};
ghost use Rattle.listing.specs.Decimal.{digit};
ghost use Rattle.listing.specs.Input.{newline, blank, mode_word, Line};

use crate::limits::INPUT_LIMIT;
use plays::mode::Mode;

// What an input asks for: the numbers of inputs and outputs, the mode and the two texts.
#[derive(Clone, Copy)]
pub(crate) struct Request<'a> {
    pub(crate) i: usize,
    pub(crate) o: usize,
    pub(crate) mode: Mode,
    pub(crate) condition: &'a [u8],
    pub(crate) rule: &'a [u8],
}

// The number of a digit.
fn digit(b: u8) -> Option<usize>
    ensures { MatchOption result ((d : ℕ) → d ≤ 9 → b ≡ digit d → ⊥) (λ d. (d ≤ 9) × (b ≡ digit d)) }
{
    if b.is_ascii_digit() {
        Some(usize::from(b - b'0'))
    } else {
        None
    }
}

// The two numbers of the first line, and what stands after that line.
fn split_numbers(text: &[u8]) -> Option<(usize, usize, &[u8])>
    ensures { MatchOption result
        ((i o : ℕ) (rest : List ℕ) → i ≤ 9 → o ≤ 9 → text.now ≡ digit i ∷ blank ∷ digit o ∷ newline ∷ rest → ⊥)
        (λ r. (r.0 ≤ 9) × (r.1 ≤ 9) × (text.now ≡ digit r.0 ∷ blank ∷ digit r.1 ∷ newline ∷ r.2.now)) }
{
    let [i, b' ', o, b'\n', rest @ ..] = text else {
        return None;
    };
    Some((digit(*i)?, digit(*o)?, rest))
}

// The mode of the first line, and what stands after that line.
fn split_mode(text: &[u8]) -> Option<(Mode, &[u8])>
    ensures { MatchOption result
        ((mode : Mode) (rest : List ℕ) → text.now ≡ mode_word mode ++ (newline ∷ rest) → ⊥)
        (λ r. text.now ≡ mode_word r.0 ++ (newline ∷ r.1.now)) }
{
    if let Some(rest) = text.strip_prefix(b"fair\n") {
        return Some((Mode::Fair, rest));
    }
    let rest = text.strip_prefix(b"stable\n")?;
    Some((Mode::Stable, rest))
}

// The index of the first 0x0A.
fn newline_at(text: &[u8]) -> Option<usize>
    ensures { result ≡ position (λ b. b == newline) text.now }
{
    text.iter().position(|b| *b == b'\n')
}

// The first line without its 0x0A, and what stands after that.
fn split_line(text: &[u8]) -> Option<(&[u8], &[u8])>
    ensures { MatchOption result (Line text.now)
        (λ r. Line r.0.now × (text.now ≡ r.0.now ++ (newline ∷ r.1.now))) }
{
    let end = newline_at(text)?;
    Some((&text[..end], &text[end + 1..]))
}

impl<'a> Request<'a> {
    ghost use Rattle.listing.specs.inner.Parsing.{AsksNothing, AsksFor};

    // What an input asks for, if it is a request.
    pub(crate) fn parse(input: &'a [u8]) -> Option<Request<'a>>
        ensures { MatchOption result (AsksNothing input.now) (λ r. AsksFor input.now r) }
    {
        if INPUT_LIMIT < input.len() {
            return None;
        }
        let (i, o, rest) = split_numbers(input)?;
        let (mode, rest) = split_mode(rest)?;
        let (condition, rest) = split_line(rest)?;
        let (rule, rest) = split_line(rest)?;
        if !rest.is_empty() {
            return None;
        }
        Some(Request {
            i,
            o,
            mode,
            condition,
            rule,
        })
    }
}
