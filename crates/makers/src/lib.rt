// The makers of the arena's nodes, on words that the caller lends: three a node.
// `count` is the number of nodes. Every function takes any words, counts and references.
// The words and the count stay two parameters: `trial_solved`, an export, has words that it may only read, and `lift` a count that grows between two
// calls; one struct serves neither.
// What each makes is a definition of crate `unification`: `specs/Answers` says how an answer is read as that definition's outcome.
#![tactic(auto)]

ghost use Rattle.std.specs.Prelude.{◌≡◌, ◌+◌, ◌*◌, ◌<◌, length};
ghost use Rattle.types.specs.Ty.{bool, int, given};
ghost use Rattle.unification.specs.Arena.{free, leaf, power, pair};
ghost use Rattle.unification.specs.Make.{make_of, build, relate};
ghost use Rattle.unification.specs.Nodes.{node_is};
ghost use Rattle.makers.specs.Answers.{made};

use types::{Atom, Name, Node, NodeRef};

// Why no node was made: the capacity is used (6); no node can be made here (2).
#[derive(Clone, Copy, PartialEq, Eq)]
pub enum MakeError {
    Full,
    Broken,
}

// Makes the next node of three words. The kind is a number, as in the words themselves (crate `unification`).
fn push(words: &mut [u32], count: u32, kind: u32, a: u32, b: u32) -> Result<NodeRef, MakeError>
    ensures { made result words.new ≡ make_of words.old count kind a b }
{
    let at = 3 * (count as usize);
    if words.len() < at {
        return Err(MakeError::Broken);
    }
    if words.len() - at < 3 {
        return Err(MakeError::Full);
    }
    if count == u32::MAX {
        return Err(MakeError::Broken);
    }
    words[at] = kind;
    words[at + 1] = a;
    words[at + 2] = b;
    Ok(NodeRef(count))
}

// Makes a node; its parts must be nodes of the arena. An unknown begins with rank 0.
pub fn make(words: &mut [u32], count: u32, node: Node) -> Result<NodeRef, MakeError>
    ensures { made result words.new ≡ build words.old count (node_is node) }
{
    match node {
        Node::Unknown => push(words, count, unification::UNKNOWN, 0, 0),
        Node::Leaf(Atom::Bool) => push(words, count, unification::BOOL, 0, 0),
        Node::Leaf(Atom::Integer) => push(words, count, unification::INTEGER, 0, 0),
        Node::Leaf(Atom::Given(name)) => push(words, count, unification::GIVEN, name.0, 0),
        Node::Power(base) if base.0 < count => { push(words, count, unification::POWER, base.0, 0) }
        Node::Product(left, right) if left.0 < count && right.0 < count => {
            push(words, count, unification::PRODUCT, left.0, right.0)
        }
        _ => Err(MakeError::Broken),
    }
}

// ---- the makers by name: each promises its own `build`

// A fresh unknown.
pub fn fresh(words: &mut [u32], count: u32) -> Result<NodeRef, MakeError>
    ensures { made result words.new ≡ build words.old count free }
{
    make(words, count, Node::Unknown)
}

// BOOL.
pub fn boolean(words: &mut [u32], count: u32) -> Result<NodeRef, MakeError>
    ensures { made result words.new ≡ build words.old count (leaf bool) }
{
    make(words, count, Node::Leaf(Atom::Bool))
}

// ℤ.
pub fn int(words: &mut [u32], count: u32) -> Result<NodeRef, MakeError>
    ensures { made result words.new ≡ build words.old count (leaf int) }
{
    make(words, count, Node::Leaf(Atom::Integer))
}

// The given set of a name.
pub fn given(words: &mut [u32], count: u32, name: Name) -> Result<NodeRef, MakeError>
    ensures { made result words.new ≡ build words.old count (leaf (given name.0)) }
{
    make(words, count, Node::Leaf(Atom::Given(name)))
}

// The power of a node of the arena.
pub fn pow(words: &mut [u32], count: u32, base: NodeRef) -> Result<NodeRef, MakeError>
    ensures { made result words.new ≡ build words.old count (power base.0) }
{
    make(words, count, Node::Power(base))
}

// The product of two nodes of the arena.
pub fn prod(
    words: &mut [u32],
    count: u32,
    left: NodeRef,
    right: NodeRef,
) -> Result<NodeRef, MakeError>
    ensures { made result words.new ≡ build words.old count (pair left.0 right.0) }
{
    make(words, count, Node::Product(left, right))
}

// The power of the product of two nodes: the product is made first.
pub fn relation(
    words: &mut [u32],
    count: u32,
    left: NodeRef,
    right: NodeRef,
) -> Result<NodeRef, MakeError>
    ensures { made result words.new ≡ relate words.old count left.0 right.0 }
{
    let product = prod(words, count, left, right)?;
    pow(words, product.0 + 1, product)
}
