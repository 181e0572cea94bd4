// The refusals of all calls.
ghost use Rattle.std.specs.Prelude.{◌≡◌};
ghost use Rattle.reader.specs.Refusal.{number_of, place_of, needed_of, text_refusal};

use crate::reading::Unreadable;

// Why a call is refused: one case for each row of the specification's table that a call of the library can return.
#[derive(Clone, Copy, PartialEq, Eq, Debug)]
pub enum Refusal {
    Alphabet,
    TextLength,
    Buffer(usize),
    RuleText(usize),
    RuleNodes,
    RuleOperators,
    ConditionText(usize),
    ConditionNodes,
    StateCount,
    GivenCount,
    Move(usize),
    State,
    Value(usize),
    Unsatisfiable,
}

// Whose text it is.
#[derive(Clone, Copy, PartialEq, Eq, Debug)]
pub enum Subject {
    Rule,
    Condition,
}

impl Unreadable {
    // The refusal of a text that reads so.
    pub fn refusal(self, subject: Subject) -> Refusal
        ensures { result ≡ text_refusal subject self }
    {
        match (self, subject) {
            (Unreadable::TooLong, _) => Refusal::TextLength,
            (Unreadable::Bad(place), Subject::Rule) => Refusal::RuleText(place),
            (Unreadable::Bad(place), Subject::Condition) => Refusal::ConditionText(place),
            (Unreadable::TooManyNodes, Subject::Rule) => Refusal::RuleNodes,
            (Unreadable::TooManyOperators, Subject::Rule) => Refusal::RuleOperators,
            (_, Subject::Condition) => Refusal::ConditionNodes,
        }
    }
}

impl Refusal {
    // The specification's number.
    pub fn number(self) -> u8
        ensures { result ≡ number_of self }
    {
        match self {
            Refusal::Alphabet => 1,
            Refusal::TextLength => 2,
            Refusal::Buffer(_) => 3,
            Refusal::RuleText(_) => 4,
            Refusal::RuleNodes => 5,
            Refusal::RuleOperators => 6,
            Refusal::ConditionText(_) => 7,
            Refusal::ConditionNodes => 8,
            Refusal::StateCount => 9,
            Refusal::GivenCount => 10,
            Refusal::Move(_) => 11,
            Refusal::State => 12,
            Refusal::Value(_) => 13,
            Refusal::Unsatisfiable => 15,
        }
    }

    // The place or index that goes with it, or 0 where there is none: the number that the C interface and the listing hand out.
    pub fn place(self) -> usize
        ensures { result ≡ place_of self }
    {
        match self {
            Refusal::RuleText(k)
            | Refusal::ConditionText(k)
            | Refusal::Move(k)
            | Refusal::Value(k) => k,
            _ => 0,
        }
    }

    // The number of states that a buffer which is too short must have room for, or 0 for every other refusal: the number that the C interface hands out.
    pub fn needed(self) -> usize
        ensures { result ≡ needed_of self }
    {
        match self {
            Refusal::Buffer(n) => n,
            _ => 0,
        }
    }
}
