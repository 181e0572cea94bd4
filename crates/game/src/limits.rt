// The limits of the game. specs/inner/Limits.antt and specs/Tables.antt have the same ones for the contracts.
use automaton::limits::STATE_LIMIT;

// A rank: the number of a round or a pass, and 0 for none. A number and no `Option`, which was tried: the solver took 4 to 9 hundredths longer (docs/TIMES.md),
// and the arrays twice the bytes.
pub type Rank = u16;

// A rank for each state.
pub type Ranks = [Rank; STATE_LIMIT];

// A limit above every rank: no rank is larger than the number of states.
pub const RANK_LIMIT: Rank = STATE_LIMIT as Rank + 1;

// The byte where a player has no move, in the tables that the C interface hands out.
pub const NO_MOVE: u8 = 255;
