// The five levels of the grammar, read from a text of the grammar into nodes: 0 what prefix marks bind, 1 until and release, 2 and, 3 or, 4 implies.
ghost use Rattle.std.specs.Prelude.{◌≡◌, ◌+◌, ◌≤◌, ◌<◌, ◌↔◌, IsTrue, length, take_while, slice_set, ◌==◌};
ghost use Rattle.reader.specs.Limits.{operator_limit};
ghost use Rattle.reader.specs.inner.Blanks.{IsMarkOrEnd, PastBlanks};

use crate::marks::{Kind, infix_op, is_temporal_mark, mark_kind, operand_node, prefix_op};
use crate::nodes::Node;

// The level of a whole text.
pub(crate) const TOP_LEVEL: u8 = 4;

// The number of blanks that a text begins with.
fn leading_blanks(text: &[u8]) -> usize
    ensures { result ≡ length (take_while (λ b. b == 32) text.now) }
{
    text.iter().take_while(|b| **b == b' ').count()
}

// The place of the first byte from `at` on that is no blank, or the text's end, a place like any other: no `Option`, since the reading goes on from it.
fn skip(text: &[u8], at: usize) -> usize
    requires { at ≤ length text.now }
    ensures { PastBlanks text.now at result }
{
    at + leading_blanks(&text[at..])
}

// How far a text of the grammar is read, which has a number of inputs: the place in the text, where no blank is, the number of nodes that are written, and the
// coordinate that is next.
#[derive(Clone, Copy)]
pub struct Reader<'a> {
    pub text: &'a [u8],
    pub inputs: u8,
    pub at: usize,
    pub nodes: usize,
    pub coordinate: usize,
    ghost mark_or_end: { IsMarkOrEnd text.now at },
}

impl<'a> Reader<'a> {
    ghost use Rattle.reader.specs.inner.Steps.{IsNew, HasInfix, PastMark, HasWritten, Readable, Consumed};

    // At the first mark of the text, with no node written.
    pub(crate) fn new(text: &'a [u8], inputs: u8) -> Reader<'a>
        ensures { IsNew text.now inputs result }
    {
        Reader {
            text,
            inputs,
            at: skip(text, 0),
            nodes: 0,
            coordinate: 1,
        }
    }

    // Whether an infix mark of the level is next.
    fn has_infix(&self, level: u8) -> bool
        ensures { IsTrue result ↔ HasInfix self.now.text.now self.now.at level }
    {
        self.at < self.text.len() && mark_kind(self.text[self.at]) == Kind::Infix(level)
    }

    // Past the next mark.
    fn after_mark(&self) -> Reader<'a>
        requires mark { self.now.at < length self.now.text.now }
        requires few { self.now.coordinate ≤ operator_limit + 1 }
        ensures { PastMark self.now.text.now self.now result }
    {
        let takes_coordinate = is_temporal_mark(self.text[self.at]);
        Reader {
            text: self.text,
            inputs: self.inputs,
            at: skip(self.text, self.at + 1),
            nodes: self.nodes,
            coordinate: self.coordinate + usize::from(takes_coordinate),
        }
    }

    // Writes one more node, of the operator or the operand that is read up to here.
    fn write(&self, node: Node, out: &mut [Node]) -> Reader<'a>
        requires { self.now.nodes < length out.old }
        ensures result { HasWritten self.now result }
        ensures stored { out.new ≡ slice_set out.old self.now.nodes node }
    {
        out[self.nodes] = node;
        Reader {
            text: self.text,
            inputs: self.inputs,
            at: self.at,
            nodes: self.nodes + 1,
            coordinate: self.coordinate,
        }
    }

    // Reads a formula of a level above 0, and writes its nodes. Level 0 is `read_prefix`'s.
    #[cycle(read)]
    pub(crate) fn read(&self, level: u8, out: &mut [Node]) -> Reader<'a>
        requires above { 0 < level }
        requires readable { Readable self.now.inputs level self.now.text.now self.now (length out.old) }
        ensures { Consumed self.now.inputs level self.now.text.now self.now out.old result out.new }
    {
        let left = if level == 1 {
            self.read_prefix(out)
        } else {
            self.read(level - 1, out)
        };
        if !left.has_infix(level) {
            return left;
        }
        let op = infix_op(left.text[left.at]);
        let right = left.after_mark().read(level, out);
        right.write(Node::Binary(op, left.nodes, left.coordinate), out)
    }

    // Reads what prefix marks bind: an operand, a parenthesis, or a prefix mark and what it binds.
    #[cycle(read)]
    fn read_prefix(&self, out: &mut [Node]) -> Reader<'a>
        requires { Readable self.now.inputs 0 self.now.text.now self.now (length out.old) }
        ensures { Consumed self.now.inputs 0 self.now.text.now self.now out.old result out.new }
    {
        let b = self.text[self.at];
        let inner = self.after_mark();
        match mark_kind(b) {
            Kind::Open => {
                let end = inner.read(TOP_LEVEL, out);
                end.after_mark()
            }
            Kind::Prefix => {
                let operand = inner.read_prefix(out);
                operand.write(Node::Unary(prefix_op(b), self.coordinate), out)
            }
            _ => inner.write(operand_node(b, self.inputs), out),
        }
    }
}
