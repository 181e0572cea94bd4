// One pass over a text that finds the place at which it is bad.
ghost use Rattle.std.specs.Prelude.{◌≡◌, ◌+◌, ◌<◌, ◌^◌};
ghost use Rattle.reader.specs.Vocabulary.{kind_of};
ghost use Rattle.reader.specs.inner.Scan.{start, mark_step, step_of, scan_of};

use crate::marks::Kind;
use crate::vocabulary::Vocabulary;

// Where the pass is between two bytes: whether an operand is due, and how many parentheses are open.
#[derive(Clone, Copy)]
pub struct ScanState {
    pub operand_due: bool,
    pub depth: usize,
}

// The state after a mark, or none where the mark cannot stand.
fn mark_step(k: Kind, s: ScanState) -> Option<ScanState>
    requires { s.depth + 1 < 2 ^ 64 }
    ensures { result ≡ mark_step k s.operand_due s.depth }
{
    let (operand_due, depth) = match (k, s.operand_due) {
        (Kind::Operand, true) => (false, s.depth),
        (Kind::Prefix, true) | (Kind::Infix(_), false) => (true, s.depth),
        (Kind::Open, true) => (true, s.depth + 1),
        (Kind::Close, false) => (false, s.depth.checked_sub(1)?),
        _ => return None,
    };
    Some(ScanState { operand_due, depth })
}

// The state after a byte, or none where it cannot stand; a blank changes nothing.
#[tactic(auto, unfolding(crate::specs::inner::Scan::step_of))]
fn step(vocabulary: Vocabulary, b: u8, s: ScanState) -> Option<ScanState>
    requires { s.depth + 1 < 2 ^ 64 }
    ensures { result ≡ step_of (kind_of vocabulary) b s }
{
    if b == b' ' {
        return Some(s);
    }
    mark_step(vocabulary.kind(b), s)
}

// Whether the text is one of the grammar, or the place at which it is bad.
#[tactic(auto, using(crate::proofs::ScanLaws::scan_turn, crate::proofs::ScanLaws::scan_end, crate::proofs::ScanLaws::step_depth))]
pub(crate) fn scan(text: &[u8], vocabulary: Vocabulary) -> Result<(), usize>
    ensures { result ≡ scan_of (kind_of vocabulary) text.now 0 start }
{
    let mut state = ScanState {
        operand_due: true,
        depth: 0,
    };
    for (at, &b) in text.iter().enumerate() {
        state = step(vocabulary, b, state).ok_or(at)?;
    }
    if state.operand_due || state.depth != 0 {
        Err(text.len())
    } else {
        Ok(())
    }
}
