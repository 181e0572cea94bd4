// The sets of valuations that a coordinate decides.
ghost use Rattle.std.specs.Prelude.{◌≡◌, ◌≤◌};
ghost use Rattle.automaton.specs.inner.Sizes.{vector_limit};
ghost use Rattle.automaton.specs.Bits.{bit, of_bits};

use crate::limits::{COORDINATE_LIMIT, VECTOR_LIMIT};

// The number of valuations, as a shift.
const VECTORS: u64 = VECTOR_LIMIT as u64;

// All valuations.
pub(crate) const ALL: u64 = 0xFFFF_FFFF_FFFF_FFFF;

// The set of the valuations whose coordinate j is 1. A set times p is that set moved up by 2^j valuations: those without the coordinate,
// moved up, are those with it, and p + 1 times those without it are all.
pub(crate) fn coordinate(j: usize) -> u64
    ensures { result ≡ of_bits (λ v. bit v j) vector_limit }
{
    if j < COORDINATE_LIMIT {
        let p = 1u64 << (1u64 << j);
        p * (ALL / (p + 1))
    } else {
        0
    }
}

// The start state: the valuations whose coordinate 0 is 1. The coordinate is written as a quotient that is 0 for every number of valuations:
// a coordinate that the compiler knows would make it put the word itself into the library.
pub(crate) fn start_word(vectors: u64) -> u64
    requires { vectors ≤ vector_limit }
    ensures { result ≡ of_bits (λ v. bit v 0) vectors }
{
    let first = (vectors / VECTORS / 2) as usize;
    let all = coordinate(first);
    if vectors < VECTORS {
        all % (1u64 << vectors)
    } else {
        all
    }
}
