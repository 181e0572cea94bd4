// The program's call: an input and an output of fixed sizes, so that a text is never cut.
ghost use Rattle.listing.specs.Promise.{Responded};

use crate::limits::{INPUT_SIZE, OUTPUT_SIZE};
use crate::list::list;

// Writes what the program prints for the first `got` bytes, all of it, and returns how many bytes that is. Where `got` is too large, all bytes count.
// No slice of what was read: with the array a buffer of another size, in which a longer input would be cut unseen, is a type error in the program.
pub fn respond(input: &[u8; INPUT_SIZE], got: usize, output: &mut [u8; OUTPUT_SIZE]) -> usize
    ensures { Responded input.now got output.old output.new result }
{
    list(&input[..got.min(input.len())], output)
}
