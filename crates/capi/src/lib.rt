// The calls of the engine for C: each answer of the library is written as numbers to places that the caller lends.
#![tactic(auto)]

mod answers;
mod mode;

ghost use Rattle.plays.specs.Arena.{arena};
ghost use Rattle.game.specs.Rule.{buffers};
ghost use Rattle.game.specs.Follower.{followed};
ghost use Rattle.capi.specs.Mode.{mode_at};
ghost use Rattle.capi.specs.Verdict.{RuleWritten, GivenWritten};
ghost use Rattle.capi.specs.Step.{position_of, StepWritten};
ghost use Rattle.capi.specs.Trial.{TrialWritten};

use crate::answers::{answer_number, answer_place, can_flag, round_of, states_of};
use crate::mode::mode_at;
use automaton::trial::try_rule;
use game::follow::Position;
use game::given::solve_given;
use game::rule::solve_rule;

// Solves the game of a rule and writes the automaton, both tables, the verdict, the number of states and the round number.
#[unsafe(no_mangle)]
pub extern "C" fn airtable_solve_rule(
    i: usize,
    o: usize,
    mode: u8,
    rule: &[u8],
    condition: &[u8],
    moves: &mut [u8],
    marks: &mut [u8],
    station: &mut [u8],
    outside: &mut [u8],
    can: &mut u8,
    n: &mut usize,
    round: &mut usize,
    place: &mut usize,
) -> u8
    ensures { RuleWritten (mode_at mode) i o rule.now condition.now
        (buffers moves.old marks.old station.old outside.old)
        (buffers moves.new marks.new station.new outside.new)
        result can.new n.new round.new place.new }
{
    let answer = solve_rule(
        i,
        o,
        mode_at(mode),
        rule,
        condition,
        moves,
        marks,
        station,
        outside,
    );
    *can = can_flag(answer);
    *n = states_of(answer);
    *round = round_of(answer);
    *place = answer_place(&answer);
    answer_number(&answer)
}

// Solves the game on a given automaton and writes both tables, the verdict and the round number.
#[unsafe(no_mangle)]
pub extern "C" fn airtable_solve_given(
    i: usize,
    o: usize,
    mode: u8,
    n: usize,
    moves: &[u8],
    marks: &[u8],
    start: usize,
    mask: u16,
    station: &mut [u8],
    outside: &mut [u8],
    can: &mut u8,
    round: &mut usize,
    place: &mut usize,
) -> u8
    ensures { GivenWritten (mode_at mode) i o start (arena i o n moves.now marks.now mask)
        station.old outside.old station.new outside.new
        result can.new round.new place.new }
{
    let answer = solve_given(
        i,
        o,
        mode_at(mode),
        n,
        moves,
        marks,
        start,
        mask,
        station,
        outside,
    );
    *can = can_flag(answer);
    *round = round_of(answer);
    *place = answer_place(&answer);
    answer_number(&answer)
}

// Follows the station's table by one step and writes the output and the next position.
#[unsafe(no_mangle)]
pub extern "C" fn airtable_follow(
    i: usize,
    o: usize,
    n: usize,
    moves: &[u8],
    marks: &[u8],
    station: &[u8],
    input: usize,
    state: &mut usize,
    reached: &mut u8,
    row: &mut u8,
    output: &mut u8,
    place: &mut usize,
) -> u8
    ensures { StepWritten (followed i o (arena i o n moves.now marks.now 0) station.now
        (position_of state.old reached.old) input) state.old reached.old state.new reached.new
        row.new output.new place.new result }
{
    let position = Position {
        state: *state,
        reached: *reached != 0,
    };
    let answer = position.follow(i, o, n, moves, marks, station, input);
    *row = 0;
    *output = 0;
    if let Ok(Some(step)) = answer {
        *state = step.next.state;
        *reached = u8::from(step.next.reached);
        *row = 1;
        *output = step.output;
    }
    *place = answer_place(&answer);
    answer_number(&answer)
}

// Tries a rule on a list of letters and writes whether the list satisfies it.
#[unsafe(no_mangle)]
pub extern "C" fn airtable_try_rule(
    i: usize,
    o: usize,
    rule: &[u8],
    letters: &[u8],
    satisfied: &mut u8,
    place: &mut usize,
) -> u8
    ensures { TrialWritten i o rule.now letters.now result satisfied.new place.new }
{
    let answer = try_rule(i, o, rule, letters);
    *satisfied = u8::from(answer == Ok(true));
    *place = answer_place(&answer);
    answer_number(&answer)
}
