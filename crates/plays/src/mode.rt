// The mode of a game.

// What the environment promises of the condition: that it holds again and again, or from some step on always.
#[derive(Clone, Copy, Debug, PartialEq, Eq)]
pub enum Mode {
    Fair,
    Stable,
}
