// The type at a reference, written into a page as a record. The units are those of the test for unknowns: a budget with which a reference was
// found solved writes it too, and so does every larger one.
// Words and count go apart, as in `makers`.
#![tactic(auto)]

ghost use Rattle.std.specs.Prelude.{◌≡◌};
ghost use Rattle.unification.specs.Put.{put};
ghost use Rattle.write.specs.Answers.{error_of, laid, spared};

use types::{Atom, Node, NodeRef};
use unifier::Halt;

// Why no record was written: no room for it (8); the budget is spent; an unknown or a broken node (2).
// Bytes of the page from the given place on may have been written; the budget stays as it was.
#[derive(Clone, Copy, PartialEq, Eq)]
pub enum WriteError {
    Full,
    Spent,
    Broken,
}

impl From<Halt> for WriteError {
    ghost from_gives = { λ halt error. error ≡ error_of halt };

    fn from(halt: Halt) -> WriteError {
        match halt {
            Halt::Spent => WriteError::Spent,
            Halt::Broken => WriteError::Broken,
        }
    }
}

// Writes the type at `t` into the page from `at` on, and answers the place after the record. With no answer, nothing is said of `left`.
fn lay(
    words: &[u32],
    count: u32,
    page: &mut [u8],
    at: usize,
    t: NodeRef,
    left: &mut u64,
) -> Result<usize, WriteError>
    ensures { laid result left.new page.new ≡ put words.now count (page.old, at, t.0) left.old }
{
    if page.len() <= at {
        return Err(WriteError::Full);
    }
    let reached = unifier::visit(words, count, t, *left)?;
    *left = reached.left;
    match reached.node.node() {
        Node::Unknown => Err(WriteError::Broken),
        Node::Leaf(Atom::Bool) => {
            page[at] = types::BOOL;
            Ok(at + 1)
        }
        Node::Leaf(Atom::Integer) => {
            page[at] = types::INTEGER;
            Ok(at + 1)
        }
        Node::Leaf(Atom::Given(name)) => {
            if page.len() - at < 3 {
                return Err(WriteError::Full);
            }
            let [low, high, _, _] = name.0.to_le_bytes();
            page[at] = types::GIVEN;
            page[at + 1] = low;
            page[at + 2] = high;
            Ok(at + 3)
        }
        Node::Power(x) => {
            page[at] = types::POWER;
            lay(words, count, page, at + 1, x, left)
        }
        Node::Product(x, y) => {
            page[at] = types::PRODUCT;
            let middle = lay(words, count, page, at + 1, x, left)?;
            lay(words, count, page, middle, y, left)
        }
    }
}

// The same, from a budget that stays as it was where nothing is answered.
pub fn put(
    words: &[u32],
    count: u32,
    page: &mut [u8],
    at: usize,
    t: NodeRef,
    left: &mut u64,
) -> Result<usize, WriteError>
    ensures answer { laid result left.new page.new ≡ put words.now count (page.old, at, t.0) left.old }
    ensures spared { spared result left.old left.new }
{
    let mut rest = *left;
    let end = lay(words, count, page, at, t, &mut rest)?;
    *left = rest;
    Ok(end)
}
