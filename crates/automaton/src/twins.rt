// Letters with equal rows in the table, which lead every state to the same state.
ghost use Rattle.std.specs.Prelude.{◌≡◌, ℕ, ◌/◌, ◌≤◌, ◌<◌, length};
ghost use Rattle.automaton.specs.inner.Sizes.{slot_count};
ghost use Rattle.automaton.specs.inner.Representation.{SameRow, Twins};

use crate::bits::WORD_BITS;
use crate::limits::{ENTRY_LIMIT, LETTER_LIMIT, SLOT_COUNT};
use crate::table::Table;

// The table with each letter's twin: an earlier letter with the same row, or the letter itself, which is its own twin: so every letter has one, and no `Option`
// is taken apart.
#[derive(Clone, Copy)]
pub(crate) struct TwinTable<'a, 'b> {
    pub(crate) table: Table<'a>,
    pub(crate) twins: &'b [u8; LETTER_LIMIT],
    ghost same_rows: { Twins table.letters (table.vectors / 2) table.entries.now twins.now },
}

impl<'a, 'b> TwinTable<'a, 'b> {
    ghost use Rattle.reader.specs.Formula.{Formula};
    ghost use Rattle.automaton.specs.State.{after};
    ghost use Rattle.automaton.specs.inner.Table.{TableOf};

    // The letter's twin.
    pub(crate) fn twin(self, letter: usize) -> usize
        requires { letter < self.table.letters }
        ensures earlier { result ≤ letter }
        ensures same { (φ : Formula) → TableOf φ self.entry.table → (state : ℕ) → after φ state result ≡ after φ state letter }
    {
        usize::from(self.twins[letter])
    }
}

// Half a word. What is kept of a key before one more entry is added is its low half.
const HALF: usize = WORD_BITS / 2;

// The slot of a row: equal rows have the same slot, and different ones mostly different slots.
fn slot_of(row: &[u8]) -> usize
    ensures { result < slot_count }
{
    let key = row.iter().fold(
        0,
        |key, &entry| (key << HALF >> HALF) * 127 + usize::from(entry % ENTRY_LIMIT),
    );
    key % SLOT_COUNT
}

// The letter b, if it is smaller and has the same row, and else the letter itself.
fn twin_of(table: Table, letter: usize, b: usize) -> usize
    requires { letter < table.letters }
    ensures { (result ≤ letter) × SameRow table.entry.entries.now (table.entry.vectors / 2) result letter }
{
    if b < letter && table.row(b) == table.row(letter) {
        b
    } else {
        letter
    }
}

// Sets each letter's twin. A slot holds the last letter that was its own twin there.
fn fill_twins(table: Table, slots: &mut [u8], twins: &mut [u8])
    requires { (slot_count ≤ length slots.old) × (table.letters ≤ length twins.old) }
    ensures { Twins table.entry.letters (table.entry.vectors / 2) table.entry.entries.now twins.new }
{
    for a in 0..table.letters {
        let k = slot_of(table.row(a));
        let b = twin_of(table, a, usize::from(slots[k]));
        slots[k] = b as u8;
        twins[a] = b as u8;
    }
}

// Each letter's twin.
pub(crate) fn find_twins(table: Table) -> [u8; LETTER_LIMIT]
    ensures { Twins table.entry.letters (table.entry.vectors / 2) table.entry.entries.now result }
{
    let mut slots = [0u8; SLOT_COUNT];
    let mut twins = [0u8; LETTER_LIMIT];
    fill_twins(table, &mut slots, &mut twins);
    twins
}
