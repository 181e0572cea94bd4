// The numbers of the library's answers: C has no `Option` and no `Result`, so that 0 stands for what there is not.
ghost use Rattle.std.specs.Prelude.{◌≡◌};
ghost use Rattle.reader.specs.Refusal.{answer_number, answer_place};
ghost use Rattle.game.specs.Answer.{answer_states, answer_round};
ghost use Rattle.capi.specs.Verdict.{can_flag};

use game::answer::{Answer, Outcome};
use reader::refusal::Refusal;

// The specification's number of a call's answer, 0 for a served call.
pub(crate) fn answer_number<T>(answer: &Result<T, Refusal>) -> u8
    ensures { result ≡ answer_number answer.now }
{
    match answer {
        Ok(_) => 0,
        Err(refusal) => refusal.number(),
    }
}

// The place of a refusal, 0 where there is none.
pub(crate) fn answer_place<T>(answer: &Result<T, Refusal>) -> usize
    ensures { result ≡ answer_place answer.now }
{
    match answer {
        Ok(_) => 0,
        Err(refusal) => refusal.place(),
    }
}

// 1 for "can", else 0.
pub(crate) fn can_flag(answer: Answer) -> u8
    ensures { result ≡ can_flag answer }
{
    u8::from(matches!(answer, Ok(Outcome::Can { .. })))
}

// The number of states: of a verdict, or what a refusal by 3 needs, and 0 for every other refusal.
pub(crate) fn states_of(answer: Answer) -> usize
    ensures { result ≡ answer_states answer }
{
    match answer {
        Ok(Outcome::Can { states, .. } | Outcome::Cannot { states }) => states,
        Err(refusal) => refusal.needed(),
    }
}

// The round number, 0 for "cannot" and for a refusal.
pub(crate) fn round_of(answer: Answer) -> usize
    ensures { result ≡ answer_round answer }
{
    match answer {
        Ok(Outcome::Can { round, .. }) => round,
        _ => 0,
    }
}
