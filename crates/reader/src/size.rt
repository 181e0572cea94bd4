// The counts of a text: its nodes and its temporal operators.
ghost use Rattle.std.specs.Prelude.{◌≡◌};
ghost use Rattle.reader.specs.inner.Counts.{node_count, operator_count};

use crate::marks::{Kind, is_temporal_mark, mark_kind};

// The nodes of a text: a name, a constant or an operator is one.
pub(crate) fn node_count(text: &[u8]) -> usize
    ensures { result ≡ node_count text.now }
{
    text.iter()
        .filter(|&&b| matches!(mark_kind(b), Kind::Operand | Kind::Prefix | Kind::Infix(_)))
        .count()
}

// The temporal operators of a text.
pub(crate) fn operator_count(text: &[u8]) -> usize
    ensures { result ≡ operator_count text.now }
{
    text.iter().filter(|&&b| is_temporal_mark(b)).count()
}
