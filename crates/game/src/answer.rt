// The answer of the two calls that solve a game.
ghost use Rattle.std.specs.Prelude.{◌≡◌};
ghost use Rattle.game.specs.Answer.{verdict_of};

use reader::refusal::Refusal;

// The verdict with the number of states and, on "can", the round number.
#[derive(Clone, Copy, PartialEq, Eq, Debug)]
pub enum Outcome {
    Can { states: usize, round: usize },
    Cannot { states: usize },
}

// The verdict, or a refusal.
pub type Answer = Result<Outcome, Refusal>;

// The verdict on n states with a round number, which is 0 where the system cannot, as `Verdict` in specs/Tables.antt has it.
pub(crate) fn verdict(states: usize, round: usize) -> Outcome
    ensures { result ≡ verdict_of states round }
{
    if round == 0 {
        return Outcome::Cannot { states };
    }
    Outcome::Can { states, round }
}
