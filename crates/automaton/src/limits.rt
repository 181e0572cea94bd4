// The limits of the automaton layer, and the sizes that follow from them. specs/Limits.antt and specs/inner/Sizes.antt have those that the contracts name.
use reader::limits::{FIELD_SIZE, OPERATOR_LIMIT};

// What one of its argument counted in a node's word while nodes were packed. It stays for whoever names it; nothing here reads it.
pub const ARGUMENT_UNIT: usize = FIELD_SIZE * FIELD_SIZE;

// Inputs at most, and outputs at most.
pub const NAME_LIMIT: usize = 4;

// States at most.
pub const STATE_LIMIT: usize = 128;

// Input numbers at most, and output numbers at most.
pub const NUMBER_LIMIT: usize = 1 << NAME_LIMIT;

// Letters at most.
pub const LETTER_LIMIT: usize = NUMBER_LIMIT * NUMBER_LIMIT;

// Coordinates of a valuation at most: the formula's own, and one for each temporal operator.
pub const COORDINATE_LIMIT: usize = OPERATOR_LIMIT + 1;

// Places of operators by their coordinates, while 0 stood for none: a power of 2 above COORDINATE_LIMIT. It stays likewise.
pub const PLACE_COUNT: usize = 8;

// Valuations at most.
pub const VECTOR_LIMIT: usize = 1 << COORDINATE_LIMIT;

// What an entry of the table, which is a valuation, is below.
pub const ENTRY_LIMIT: u8 = VECTOR_LIMIT as u8;

// Pairs of valuations that differ in coordinate 0 only, at most.
pub const PAIR_LIMIT: usize = VECTOR_LIMIT / 2;

// Entries of the table: one for each letter and pair.
pub const TABLE_SIZE: usize = LETTER_LIMIT * PAIR_LIMIT;

// Slots of guesses, where a state stands in the list and which letter has the same row: a prime, well above STATE_LIMIT and LETTER_LIMIT.
pub const SLOT_COUNT: usize = 1021;
