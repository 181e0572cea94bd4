// The limits of the program's input and output. specs/Input.antt and specs/Promise.antt have the same ones for the contracts.

// The bytes of an input at most.
pub const INPUT_LIMIT: usize = 2048;

// One byte more than an input may have, so that a longer one is seen as such.
pub const INPUT_SIZE: usize = INPUT_LIMIT + 1;

// Room for the longest text that is printed.
pub const OUTPUT_SIZE: usize = 8192;
