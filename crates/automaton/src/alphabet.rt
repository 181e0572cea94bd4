// The numbers of an alphabet, and the tests that the calls share.
ghost use Rattle.std.specs.Prelude.{◌≡◌, ◌<◌, cond, ◌*◌, ◌^◌, leb, length, MatchOption};
ghost use Rattle.automaton.specs.Limits.{name_limit};
ghost use Rattle.automaton.specs.Alphabet.{bad_alphabet, first_over};

use crate::limits::NAME_LIMIT;

// Whether i or o is above NAME_LIMIT.
pub fn bad_alphabet(i: usize, o: usize) -> bool
    ensures { result ≡ bad_alphabet i o }
{
    NAME_LIMIT < i || NAME_LIMIT < o
}

// Inputs and outputs together, at most.
const NAMES: usize = 2 * NAME_LIMIT;

// 2 to the power k, for a k up to NAMES; 0 for any other: no `Option`, since every caller has tested i and o, and would have to take it apart.
pub fn power(k: usize) -> usize
    ensures { result ≡ cond (leb k (2 * name_limit)) (2 ^ k) 0 }
{
    if k <= NAMES { 1 << k } else { 0 }
}

// The index of the first byte that is `bound` or more, if there is one.
pub fn first_over(bytes: &[u8], bound: usize) -> Option<usize>
    ensures { MatchOption result (first_over bound bytes.now ≡ length bytes.now)
        (λ k. (k ≡ first_over bound bytes.now) × (k < length bytes.now)) }
{
    bytes.iter().position(|&b| bound <= usize::from(b))
}
