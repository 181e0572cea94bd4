// The lines of a listing.
ghost use Rattle.std.specs.Prelude.{◌≡◌, [], ◌∷◌, ◌+◌, ◌*◌, ◌^◌, ◌≤◌, ◌<◌, get_or};
ghost use Rattle.automaton.specs.Limits.{state_limit};
ghost use Rattle.game.specs.Answer.{answer_states};
ghost use Rattle.listing.specs.Input.{blank};
ghost use Rattle.listing.specs.Listing.{fields, goal_mark, refusal_line};
ghost use Rattle.listing.specs.inner.Rendering.{listing_of, row_limit};
ghost use Rattle.listing.specs.inner.Writing.{Puts};

use crate::write::Output;
use game::answer::{Answer, Outcome};
use game::limits::NO_MOVE;

// A solved game as it is listed: the number of its states and that of its input numbers, which is a row's length, and the tables.
#[derive(Clone, Copy)]
pub(crate) struct Tables<'a> {
    pub(crate) states: usize,
    pub(crate) inputs: usize,
    pub(crate) accepting: &'a [u8],
    pub(crate) system: &'a [u8],
    pub(crate) environment: &'a [u8],
    ghost few_states: { states ≤ state_limit },
    ghost few_inputs: { inputs ≤ row_limit },
}

// The byte at an index, or 0 past the end, as the listing's specification reads a table.
fn byte_at(table: &[u8], k: usize) -> u8
    ensures { result ≡ get_or table.now k 0 }
{
    table.get(k).copied().unwrap_or(0)
}

// Writes so many bytes of a table from an index on, each after a blank. No slice of the table, which may be shorter than that.
fn put_fields(out: &mut Output, table: &[u8], from: usize, count: usize)
    requires { from + count ≤ state_limit * row_limit + row_limit }
    ensures { Puts out.old (fields table.now from count) out.new }
{
    for k in from..from + count {
        out.put_field(usize::from(byte_at(table, k)));
    }
}

impl<'a> Tables<'a> {
    ghost use Rattle.listing.specs.inner.Lines.{winner_of, line_of, lines_of, verdict_of};

    // Writes a state's mark between blanks.
    fn put_mark(self, out: &mut Output, s: usize)
        ensures { Puts out.old (blank ∷ goal_mark self.entry.accepting.now s ∷ blank ∷ []) out.new }
    {
        let mark = if byte_at(self.accepting, s) == 0 {
            b" - "
        } else {
            b" * "
        };
        out.put_word(mark);
    }

    // Writes a state's winner and its row.
    fn put_winner(self, out: &mut Output, s: usize)
        requires { s < self.states }
        ensures { Puts out.old (winner_of self.entry s) out.new }
    {
        if byte_at(self.environment, s) == NO_MOVE {
            out.put(b'S');
            put_fields(out, self.system, s * self.inputs, self.inputs);
        } else {
            out.put(b'O');
            put_fields(out, self.environment, s, 1);
        }
    }

    // Writes a state's line.
    fn put_state(self, out: &mut Output, s: usize)
        requires { s < self.states }
        ensures { Puts out.old (line_of self.entry s) out.new }
    {
        out.put_decimal(s);
        self.put_mark(out, s);
        self.put_winner(out, s);
        out.put(b'\n');
    }

    // Writes the lines of all states.
    fn put_states(self, out: &mut Output)
        ensures { Puts out.old (lines_of self.entry) out.new }
    {
        for s in 0..self.states {
            self.put_state(out, s);
        }
    }

    // Writes a verdict: its word, the number of states, the round number and the states' lines.
    fn put_verdict(self, out: &mut Output, word: &[u8], round: usize)
        ensures { Puts out.old (verdict_of self.entry word.now round) out.new }
    {
        out.put_word(word);
        out.put_decimal(self.states);
        out.put_field(round);
        out.put(b'\n');
        self.put_states(out);
    }
}

// Writes a refusal's line.
pub(crate) fn put_refusal(out: &mut Output, refused: usize, index: usize)
    ensures { Puts out.old (refusal_line refused index) out.new }
{
    out.put_word(b"refused ");
    out.put_decimal(refused);
    out.put_field(index);
    out.put(b'\n');
}

// The number of input numbers.
fn input_count(i: usize) -> usize
    requires { i ≤ 9 }
    ensures { (result ≡ 2 ^ i) × (result ≤ row_limit) }
{
    1 << i
}

// Writes the listing of an answer.
pub(crate) fn put_listing(
    out: &mut Output,
    i: usize,
    answer: Answer,
    accepting: &[u8],
    system: &[u8],
    environment: &[u8],
)
    requires { (i ≤ 9) × (answer_states answer ≤ state_limit) }
    ensures { Puts out.old (listing_of i accepting.now system.now environment.now answer) out.new }
{
    let (word, states, round): (&[u8], usize, usize) = match answer {
        Ok(Outcome::Can { states, round }) => (b"can ", states, round),
        Ok(Outcome::Cannot { states }) => (b"cannot ", states, 0),
        Err(refusal) => {
            put_refusal(out, usize::from(refusal.number()), refusal.place());
            return;
        }
    };
    let tables = Tables {
        states,
        inputs: input_count(i),
        accepting,
        system,
        environment,
    };
    tables.put_verdict(out, word, round);
}
