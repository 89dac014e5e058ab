// A type record of a byte slice, lifted into the arena: its parts first, the left one first, then the node itself. Any bytes are taken: where no
// type record stands, or one deeper than `left` levels, the answer is `Broken`. Nodes that were made before the capacity ended stand.
// Words and count go apart, as in `makers`.
#![tactic(auto)]

ghost use Rattle.std.specs.Prelude.{◌≡◌};
ghost use Rattle.unification.specs.Lift.{lift_of};
ghost use Rattle.lift.specs.Answers.{raised};

use makers::MakeError;
use types::{Head, Node, NodeRef};

// Lifts the type record at `at`, in at most `left` levels of records: the node of the type, and the place after its record.
pub fn lift(
    words: &mut [u32],
    count: u32,
    s: &[u8],
    names: u32,
    at: usize,
    left: u32,
) -> Result<(NodeRef, usize), MakeError>
    ensures { raised result words.new ≡ lift_of left names s.now words.old count at }
{
    if left == 0 {
        return Err(MakeError::Broken);
    }
    let head = types::head_at(s, names, at).ok_or(MakeError::Broken)?;
    match head {
        Head::Atomic(a, end) => {
            let root = makers::make(words, count, Node::Leaf(a))?;
            Ok((root, end))
        }
        Head::Power(part) => {
            let (x, end) = lift(words, count, s, names, part, left - 1)?;
            let root = makers::pow(words, x.0 + 1, x)?;
            Ok((root, end))
        }
        Head::Product(part) => {
            let (x, middle) = lift(words, count, s, names, part, left - 1)?;
            let (y, end) = lift(words, x.0 + 1, s, names, middle, left - 1)?;
            let root = makers::prod(words, y.0 + 1, x, y)?;
            Ok((root, end))
        }
    }
}
