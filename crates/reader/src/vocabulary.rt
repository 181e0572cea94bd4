// The names and marks that may stand in a text.
ghost use Rattle.std.specs.Prelude.{◌≡◌};
ghost use Rattle.reader.specs.Marks.{allowed_by};
ghost use Rattle.reader.specs.Vocabulary.{kind_of, vocabulary_of};

use crate::marks::{Kind, is_temporal_mark, mark_kind};
use crate::refusal::Subject;

// What is in reach of a text: names of so many inputs and outputs, and temporal marks or none.
#[derive(Clone, Copy)]
pub struct Vocabulary {
    pub inputs: u8,
    pub outputs: u8,
    pub temporal: bool,
}

impl Vocabulary {
    // What may stand in a rule: the names of all inputs and outputs, and temporal marks; in a condition: input names only, and no temporal mark.
    pub fn of(subject: Subject, inputs: u8, outputs: u8) -> Vocabulary
        ensures { result ≡ vocabulary_of subject inputs outputs }
    {
        match subject {
            Subject::Rule => Vocabulary {
                inputs,
                outputs,
                temporal: true,
            },
            Subject::Condition => Vocabulary {
                inputs,
                outputs: 0,
                temporal: false,
            },
        }
    }

    // Whether a byte is in reach. A byte that is no name and no mark is.
    #[tactic(auto, unfolding(crate::specs::Marks::allowed_by, crate::specs::Marks::is_temporal_mark, crate::specs::Marks::among_of))]
    fn allows(self, b: u8) -> bool
        ensures { result ≡ allowed_by self.inputs self.outputs self.temporal b }
    {
        match b {
            b'a'..=b'd' => b - b'a' < self.inputs,
            b'p'..=b's' => b - b'p' < self.outputs,
            _ => self.temporal || !is_temporal_mark(b),
        }
    }

    // The kind of a byte.
    #[tactic(auto, unfolding(crate::specs::Marks::kind_in))]
    pub(crate) fn kind(self, b: u8) -> Kind
        ensures { result ≡ kind_of self b }
    {
        if self.allows(b) {
            mark_kind(b)
        } else {
            Kind::Other
        }
    }
}
