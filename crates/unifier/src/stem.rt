// A node that is no binding, as the three words that it is, and no `types::Node`: the recursions match on the kind's number (see `Told`).

ghost use Rattle.std.specs.Prelude.{◌≡◌};
ghost use Rattle.unification.specs.Arena.{decode};
ghost use Rattle.unification.specs.Good.{Root};
ghost use Rattle.unification.specs.Nodes.{node_is, root_prop};

use types::{Atom, Name, Node, NodeRef};

#[derive(Clone, Copy)]
pub struct Stem {
    pub kind: u32,
    pub a: u32,
    pub b: u32,
    ghost is_root: { Root (decode kind a b) } by { root_prop (decode kind a b) },
}

impl Stem {
    // The node itself.
    pub fn node(self) -> Node
        ensures { node_is result ≡ decode self.kind self.a self.b }
    {
        let kind = self.kind;
        match kind {
            unification::UNKNOWN => Node::Unknown,
            unification::BOOL => Node::Leaf(Atom::Bool),
            unification::INTEGER => Node::Leaf(Atom::Integer),
            unification::GIVEN => Node::Leaf(Atom::Given(Name(self.a))),
            unification::POWER => Node::Power(NodeRef(self.a)),
            _ => Node::Product(NodeRef(self.a), NodeRef(self.b)),
        }
    }
}
