// The listing call.
ghost use Rattle.listing.specs.Promise.{Listed};

use crate::input::Request;
use crate::render::{put_listing, put_refusal};
use crate::write::Output;
use automaton::limits::{LETTER_LIMIT, NUMBER_LIMIT, STATE_LIMIT};
use game::rule::solve_rule;

// The number of the refusal of an input that is no request, which only the program gives: a number, since it is printed, as that of a `Refusal` is.
const NO_REQUEST: usize = 14;

// Writes what the program prints for an input, as far as the output has room for it, and returns how many bytes that is.
pub fn list(input: &[u8], output: &mut [u8]) -> usize
    ensures { Listed input.now output.old output.new result }
{
    let mut out = Output::new(output);
    let Some(request) = Request::parse(input) else {
        put_refusal(&mut out, NO_REQUEST, 0);
        return out.len();
    };
    let mut transitions = [0u8; STATE_LIMIT * LETTER_LIMIT];
    let mut accepting = [0u8; STATE_LIMIT];
    let mut system = [0u8; STATE_LIMIT * NUMBER_LIMIT];
    let mut environment = [0u8; STATE_LIMIT];
    let answer = solve_rule(
        request.i,
        request.o,
        request.mode,
        request.rule,
        request.condition,
        &mut transitions,
        &mut accepting,
        &mut system,
        &mut environment,
    );
    put_listing(
        &mut out,
        request.i,
        answer,
        &accepting,
        &system,
        &environment,
    );
    out.len()
}
