// The walk over a formula's bytes: expressions and predicates call each other with the remaining depth falling. A record is known by its head,
// read by the functions of the test of form. Every function takes any bytes: where the form was tested no malformed record is met, and elsewhere
// the walk may stop as broken.
#![tactic(auto)]

ghost use Rattle.std.specs.Prelude.{◌≡◌};
ghost use Rattle.machine.specs.Seen.{machine, walked, Kept};
ghost use Rattle.walker.specs.Walk.{meet_of, next_of, one_of, two_of, all_of, children_of, preds_of, quant_of, pred_quant_of, ascribed_of, body_of, pred_body_of, expr_of, explicit_of, owned_of, pred_of};
ghost use Rattle.walker.specs.Root.{pairs_of, products_of, belongs_of, becomes_in_of, targets_of, shares_of, such_that_of, becomes_such_of, formula_of};

use heads::{ExprHead, PredHead, Root};
use machine::{Machine, Part, Problem, Stop};
use operators::{Mode, Plan, Script};
use types::{Atom, Node, NodeRef, Place};

// A child against what it is compared with, unless the mode compares nothing.
#[tactic(auto, using(machine::specs::Seen::still, machine::specs::Still::tests, crate::specs::StillWalk::still), unfolding(crate::specs::Walk::meet_of, forms::specs::Forms::then))]
fn meet(walk: &mut Machine, mode: Mode, x: NodeRef, y: NodeRef, place: Place) -> Result<(), Stop>
    ensures value { walked result walk.new ≡ meet_of mode x.0 y.0 place.0 (machine walk.old) }
    ensures kept { Kept walk.old walk.new }
{
    match mode {
        Mode::Loose => Ok(()),
        Mode::Same | Mode::Linked => walk.expect(x, y, place),
    }
}

// What the next child begins with.
#[tactic(auto, unfolding(crate::specs::Walk::next_of))]
fn next(mode: Mode, y: NodeRef, t: NodeRef) -> NodeRef
    ensures { result ≡ next_of mode y t }
{
    match mode {
        Mode::Linked => t,
        Mode::Loose | Mode::Same => y,
    }
}

// Where a script is played with fewer than two parts, what stands for the other. A number and no Option: `parts_of` has a reference for each part, and
// what a script that asks for a missing one gets is told by it.
fn no_part(place: Place) -> Part
    ensures { result ≡ record { node = record { 0 = 0 }; place = place } }
{
    Part {
        node: NodeRef(0),
        place,
    }
}

// ---- the cycle: expressions and predicates. Its rows, `each` and `preds`, are loops: a closure would call back into the cycle and need clauses of its own.

// An expression, with what stands below it.
#[tactic(auto, using(machine::specs::Seen::still, machine::specs::Still::tests, crate::specs::StillWalk::still, crate::proofs::Laws::expr_is), unfolding(crate::specs::Walk::expr_by, machine::specs::Machine::stopped_of, forms::specs::Forms::then))]
#[cycle(walking)]
fn expr(walk: &mut Machine, left: u32) -> Result<(), Stop>
    ensures value { walked result walk.new ≡ expr_of left walk.old.formula.now walk.old.environment.now (machine walk.old) }
    ensures kept { Kept walk.old walk.new }
{
    let found = heads::expr_head(walk.formula, types::MAX_NAMES, false, walk.at);
    let head = found.ok_or(Stop::Broken)?;
    match head {
        ExprHead::Explicit(e) => explicit(walk, left, e),
        _ => owned(walk, left, head),
    }
}

// 0C, an expression of a stated type, the type at e: the comparison stands at the expression's own place, after its walk.
#[tactic(auto, using(machine::specs::Seen::still, machine::specs::Still::tests, crate::specs::StillWalk::still, crate::proofs::Laws::levels), unfolding(crate::specs::Walk::paid_by, crate::specs::Walk::entered_by, crate::specs::Walk::typed_by, machine::specs::Machine::stopped_of, forms::specs::Forms::then))]
#[cycle(walking)]
fn explicit(walk: &mut Machine, left: u32, e: Place) -> Result<(), Stop>
    ensures value { walked result walk.new ≡ explicit_of left walk.old.formula.now walk.old.environment.now e (machine walk.old) }
    ensures kept { Kept walk.old walk.new }
{
    walk.paid()?;
    if left == 0 {
        return Err(Stop::Broken);
    }
    walk.placed(e);
    walk.skip(types::LEVELS)?;
    expr(walk, left - 1)?;
    let part = walk.part();
    let after = walk.at;
    walk.placed(e);
    walk.meets(part.node, part.place)?;
    walk.placed(after);
    walk.gave(part.node);
    Ok(())
}

// Any other expression, with its head. Its slot is taken before its parts' and filled after them.
#[tactic(auto, using(machine::specs::Seen::still, machine::specs::Still::tests, crate::specs::StillWalk::still, crate::proofs::Laws::levels), unfolding(crate::specs::Walk::owned_by, crate::specs::Walk::entered_by, machine::specs::Machine::stopped_of, forms::specs::Forms::then))]
#[cycle(walking)]
fn owned(walk: &mut Machine, left: u32, head: ExprHead) -> Result<(), Stop>
    ensures value { walked result walk.new ≡ owned_of left walk.old.formula.now walk.old.environment.now head (machine walk.old) }
    ensures kept { Kept walk.old walk.new }
{
    let place = walk.at;
    let slot = walk.slots;
    walk.enter()?;
    if left == 0 {
        return Err(Stop::Broken);
    }
    body(walk, left - 1, head)?;
    walk.leave(slot, place);
    Ok(())
}

// The rule of an expression, by its head.
#[tactic(auto, using(machine::specs::Seen::still, machine::specs::Still::tests, crate::specs::StillWalk::still), unfolding(crate::specs::Walk::body_by, machine::specs::Machine::stopped_of, machine::specs::Types::atom_of, types::specs::Code::atom_is, machine::specs::Scripts::parts_of, forms::specs::Forms::then))]
#[cycle(walking)]
fn body(walk: &mut Machine, left: u32, head: ExprHead) -> Result<(), Stop>
    ensures value { walked result walk.new ≡ body_of left walk.old.formula.now walk.old.environment.now head (machine walk.old) }
    ensures kept { Kept walk.old walk.new }
{
    let at = walk.at;
    match head {
        ExprHead::Free(x, e) => {
            walk.placed(e);
            walk.free_identifier(x, at)
        }
        ExprHead::Bound(i, e) => {
            walk.placed(e);
            walk.bound_identifier(u32::from(i), at)
        }
        ExprHead::Literal(e) => {
            walk.placed(e);
            walk.make(Node::Leaf(Atom::Integer))
        }
        ExprHead::Atomic(o, e) => {
            walk.placed(e);
            walk.play(operators::check_atomic(o), no_part(at), no_part(at), at)
        }
        ExprHead::Extension(n, e) => {
            walk.placed(e);
            all(walk, left, EXTENSION, n)
        }
        ExprHead::Truth(e) => {
            walk.placed(e);
            pred(walk, left)?;
            walk.make(Node::Leaf(Atom::Bool))
        }
        ExprHead::Binary(o, e) => {
            walk.placed(e);
            two(walk, left, operators::check_binary(o), at)
        }
        ExprHead::Associative(o, n, e) => {
            walk.placed(e);
            all(walk, left, operators::check_associative(o), n)
        }
        ExprHead::Unary(o, e) => {
            walk.placed(e);
            one(walk, left, operators::check_unary(o), at)
        }
        ExprHead::Quantified(o, n, e) => quant(walk, left, o, n, e),
        ExprHead::Ascribed(e) => ascribed(walk, left, e),
        ExprHead::Explicit(_) => Err(Stop::Broken),
    }
}

// 0B, an expression whose type is ascribed: the ascription stands behind it, and is compared at the record's place.
#[tactic(auto, using(machine::specs::Seen::still, machine::specs::Still::tests, crate::specs::StillWalk::still), unfolding(crate::specs::Walk::ascribed_by, forms::specs::Forms::then))]
#[cycle(walking)]
fn ascribed(walk: &mut Machine, left: u32, e: Place) -> Result<(), Stop>
    ensures value { walked result walk.new ≡ ascribed_of left walk.old.formula.now walk.old.environment.now e (machine walk.old) }
    ensures kept { Kept walk.old walk.new }
{
    let at = walk.at;
    walk.placed(e);
    expr(walk, left)?;
    let x = walk.last;
    walk.ascription(x, at)?;
    walk.gave(x);
    Ok(())
}

// One expression, and then a script.
#[tactic(auto, using(machine::specs::Seen::still, machine::specs::Still::tests, crate::specs::StillWalk::still), unfolding(crate::specs::Walk::one_by, forms::specs::Forms::then))]
#[cycle(walking)]
fn one(walk: &mut Machine, left: u32, script: Script, place: Place) -> Result<(), Stop>
    ensures value { walked result walk.new ≡ one_of left walk.old.formula.now walk.old.environment.now script place.0 (machine walk.old) }
    ensures kept { Kept walk.old walk.new }
{
    expr(walk, left)?;
    walk.play(script, walk.part(), no_part(place), place)
}

// Two expressions, and then a script.
#[tactic(auto, using(machine::specs::Seen::still, machine::specs::Still::tests, crate::specs::StillWalk::still), unfolding(crate::specs::Walk::two_by, forms::specs::Forms::then))]
#[cycle(walking)]
fn two(walk: &mut Machine, left: u32, script: Script, place: Place) -> Result<(), Stop>
    ensures value { walked result walk.new ≡ two_of left walk.old.formula.now walk.old.environment.now script place.0 (machine walk.old) }
    ensures kept { Kept walk.old walk.new }
{
    expr(walk, left)?;
    let first = walk.part();
    expr(walk, left)?;
    let second = walk.part();
    walk.play(script, first, second, place)
}

// The plans of a set extension, of a multiple predicate and of a predicate's application.
const EXTENSION: Plan = Plan {
    first: Script::Unknown,
    link: Script::Nothing,
    last: Script::Power,
    mode: Mode::Same,
};

const MULTIPLE: Plan = Plan {
    first: Script::EmptySet,
    link: Script::Nothing,
    last: Script::Nothing,
    mode: Mode::Same,
};

const APPLICATION: Plan = Plan {
    first: Script::Nothing,
    link: Script::Nothing,
    last: Script::Nothing,
    mode: Mode::Loose,
};

// Any number of expressions, by a plan.
#[tactic(auto, using(machine::specs::Seen::still, machine::specs::Still::tests, crate::specs::StillWalk::still), unfolding(crate::specs::Walk::all_by, machine::specs::Scripts::parts_of, forms::specs::Forms::then))]
#[cycle(walking)]
fn all(walk: &mut Machine, left: u32, plan: Plan, n: u16) -> Result<(), Stop>
    ensures value { walked result walk.new ≡ all_of left walk.old.formula.now walk.old.environment.now plan n (machine walk.old) }
    ensures kept { Kept walk.old walk.new }
{
    let at = walk.at;
    walk.play(plan.first, no_part(at), no_part(at), at)?;
    let x = walk.last;
    each(walk, left, plan, x, n)?;
    let first = Part { node: x, place: at };
    let last = Part {
        node: walk.last,
        place: at,
    };
    walk.play(plan.last, first, last, at)
}

// n expressions, one after the other. The last reference is then where the last of them ended.
#[tactic(auto, using(machine::specs::Seen::still, machine::specs::Still::tests, crate::specs::StillWalk::still, crate::proofs::Laws::turns), unfolding(crate::specs::Walk::child_by, forms::specs::Forms::then))]
#[cycle(walking)]
fn each(walk: &mut Machine, left: u32, plan: Plan, x: NodeRef, n: u16) -> Result<(), Stop>
    ensures value { walked result walk.new ≡ children_of left walk.old.formula.now walk.old.environment.now plan n x (machine walk.old) }
    ensures kept { Kept walk.old walk.new }
{
    let mut y = x;
    for _ in 0..n {
        let t = NodeRef(walk.nodes);
        let part = Part {
            node: y,
            place: walk.at,
        };
        walk.play(plan.link, part, part, part.place)?;
        let z = walk.last;
        expr(walk, left)?;
        let child = walk.part();
        meet(walk, plan.mode, child.node, z, child.place)?;
        y = next(plan.mode, y, t);
    }
    walk.gave(y);
    Ok(())
}

// 0A, a quantified expression: its operator, its declarations' count, and where they begin.
#[tactic(auto, using(machine::specs::Seen::still, machine::specs::Still::tests, crate::specs::StillWalk::still), unfolding(crate::specs::Walk::quant_by, forms::specs::Forms::then))]
#[cycle(walking)]
fn quant(walk: &mut Machine, left: u32, o: u8, n: u8, e: Place) -> Result<(), Stop>
    ensures value { walked result walk.new ≡ quant_of left walk.old.formula.now walk.old.environment.now o n e (machine walk.old) }
    ensures kept { Kept walk.old walk.new }
{
    let at = walk.at;
    let around = walk.bound;
    walk.placed(e);
    walk.declare(n)?;
    pred(walk, left)?;
    one(walk, left, operators::check_quantified(o), at)?;
    walk.bounded(around);
    Ok(())
}

// A predicate, with what stands below it.
#[tactic(auto, using(machine::specs::Seen::still, machine::specs::Still::tests, crate::specs::StillWalk::still, crate::proofs::Laws::levels), unfolding(crate::specs::Walk::pred_by, crate::specs::Walk::paid_by, crate::specs::Walk::entered_by, machine::specs::Machine::stopped_of, forms::specs::Forms::then))]
#[cycle(walking)]
fn pred(walk: &mut Machine, left: u32) -> Result<(), Stop>
    ensures value { walked result walk.new ≡ pred_of left walk.old.formula.now walk.old.environment.now (machine walk.old) }
    ensures kept { Kept walk.old walk.new }
{
    let head = heads::pred_head(walk.formula, walk.at).ok_or(Stop::Broken)?;
    walk.paid()?;
    if left == 0 {
        return Err(Stop::Broken);
    }
    pbody(walk, left - 1, head)
}

// The rule of a predicate, by its head.
#[tactic(auto, using(machine::specs::Seen::still, machine::specs::Still::tests, crate::specs::StillWalk::still), unfolding(crate::specs::Walk::pred_body_by, forms::specs::Forms::then))]
#[cycle(walking)]
fn pbody(walk: &mut Machine, left: u32, head: PredHead) -> Result<(), Stop>
    ensures value { walked result walk.new ≡ pred_body_of left walk.old.formula.now walk.old.environment.now head (machine walk.old) }
    ensures kept { Kept walk.old walk.new }
{
    let at = walk.at;
    match head {
        PredHead::Constant(e) | PredHead::Variable(e) => {
            walk.placed(e);
            Ok(())
        }
        PredHead::Relational(o, e) => {
            walk.placed(e);
            two(walk, left, operators::check_relational(o), at)
        }
        PredHead::Connective(e) => {
            walk.placed(e);
            preds(walk, left, 2)
        }
        PredHead::Junction(n, e) => {
            walk.placed(e);
            preds(walk, left, n)
        }
        PredHead::Negation(e) => {
            walk.placed(e);
            pred(walk, left)
        }
        PredHead::Quantification(n, e) => pquant(walk, left, n, e),
        PredHead::Simple(e) => {
            walk.placed(e);
            one(walk, left, Script::Finite, at)
        }
        PredHead::Multiple(n, e) => {
            walk.placed(e);
            all(walk, left, MULTIPLE, n)
        }
        PredHead::Application(n, e) => {
            walk.placed(e);
            all(walk, left, APPLICATION, n)?;
            walk.list(Problem::Application, at, None);
            Ok(())
        }
    }
}

// 26, a quantified predicate. Beside `quant`: what the two have in common is the declarations' scope, and what is walked in it calls back into the cycle.
#[tactic(auto, using(machine::specs::Seen::still, machine::specs::Still::tests, crate::specs::StillWalk::still), unfolding(crate::specs::Walk::pred_quant_by, forms::specs::Forms::then))]
#[cycle(walking)]
fn pquant(walk: &mut Machine, left: u32, n: u8, e: Place) -> Result<(), Stop>
    ensures value { walked result walk.new ≡ pred_quant_of left walk.old.formula.now walk.old.environment.now n e (machine walk.old) }
    ensures kept { Kept walk.old walk.new }
{
    let around = walk.bound;
    walk.placed(e);
    walk.declare(n)?;
    pred(walk, left)?;
    walk.bounded(around);
    Ok(())
}

// n predicates.
#[tactic(auto, using(machine::specs::Seen::still, machine::specs::Still::tests, crate::specs::StillWalk::still, machine::proofs::Laws::turns), unfolding(forms::specs::Forms::then))]
#[cycle(walking)]
fn preds(walk: &mut Machine, left: u32, n: u16) -> Result<(), Stop>
    ensures value { walked result walk.new ≡ preds_of left walk.old.formula.now walk.old.environment.now n (machine walk.old) }
    ensures kept { Kept walk.old walk.new }
{
    for _ in 0..n {
        pred(walk, left)?;
    }
    Ok(())
}

// ---- assignments, and a whole formula. Rows are loops: of a walk that the closure of `try_for_each` changes a proof knows nothing after it.

// n pairs: each value against its target, at the value.
#[tactic(auto, using(machine::specs::Seen::still, machine::specs::Still::tests, crate::specs::StillWalk::still, machine::proofs::Laws::turns), unfolding(crate::specs::Root::pair_by, forms::specs::Forms::then))]
fn pairs(walk: &mut Machine, n: u8) -> Result<(), Stop>
    ensures value { walked result walk.new ≡ pairs_of walk.old.formula.now walk.old.environment.now n (machine walk.old) }
    ensures kept { Kept walk.old walk.new }
{
    for _ in 0..n {
        expr(walk, types::MAX_DEPTH)?;
        let x = walk.last;
        expr(walk, types::MAX_DEPTH)?;
        walk.expect(walk.last, x, walk.from)?;
    }
    Ok(())
}

// The product of n targets, which leans left, where the first of them was walked last.
#[tactic(auto, using(machine::specs::Seen::still, machine::specs::Still::tests, crate::specs::StillWalk::still, machine::proofs::Laws::turns), unfolding(crate::specs::Root::product_by, forms::specs::Forms::then))]
fn products(walk: &mut Machine, n: u8) -> Result<(), Stop>
    ensures value { walked result walk.new ≡ products_of walk.old.formula.now walk.old.environment.now n (machine walk.old) }
    ensures kept { Kept walk.old walk.new }
{
    for _ in 1..n {
        let x = walk.last;
        expr(walk, types::MAX_DEPTH)?;
        walk.make(Node::Product(x, walk.last))?;
    }
    Ok(())
}

// A set against the power of what was walked last, at the set.
#[tactic(auto, using(machine::specs::Seen::still, machine::specs::Still::tests, crate::specs::StillWalk::still), unfolding(crate::specs::Root::belongs_of, forms::specs::Forms::then))]
fn belongs(walk: &mut Machine) -> Result<(), Stop>
    ensures value { walked result walk.new ≡ belongs_of walk.old.formula.now walk.old.environment.now (machine walk.old) }
    ensures kept { Kept walk.old walk.new }
{
    walk.make(Node::Power(walk.last))?;
    let y = walk.last;
    expr(walk, types::MAX_DEPTH)?;
    walk.expect(walk.last, y, walk.from)
}

// The targets' product, and a set that it belongs to.
#[tactic(auto, using(machine::specs::Seen::still, machine::specs::Still::tests, crate::specs::StillWalk::still), unfolding(crate::specs::Root::becomes_in_of, forms::specs::Forms::then))]
fn becomes_in(walk: &mut Machine, n: u8) -> Result<(), Stop>
    ensures value { walked result walk.new ≡ becomes_in_of walk.old.formula.now walk.old.environment.now n (machine walk.old) }
    ensures kept { Kept walk.old walk.new }
{
    expr(walk, types::MAX_DEPTH)?;
    products(walk, n)?;
    belongs(walk)
}

// n targets, one after the other.
#[tactic(auto, using(machine::specs::Seen::still, machine::specs::Still::tests, crate::specs::StillWalk::still, machine::proofs::Laws::turns), unfolding(forms::specs::Forms::then))]
fn targets(walk: &mut Machine, n: u8) -> Result<(), Stop>
    ensures value { walked result walk.new ≡ targets_of walk.old.formula.now walk.old.environment.now n (machine walk.old) }
    ensures kept { Kept walk.old walk.new }
{
    for _ in 0..n {
        expr(walk, types::MAX_DEPTH)?;
    }
    Ok(())
}

// Each of n declarations against its target: the slots of both stand one after the other, from the first target's on.
#[tactic(auto, using(machine::specs::Seen::still, machine::specs::Still::tests, crate::specs::StillWalk::still, crate::proofs::Laws::turns), unfolding(crate::specs::Root::shares_of, crate::specs::Root::share_by, forms::specs::Forms::then))]
fn shares(walk: &mut Machine, first: u32, n: u8, place: Place) -> Result<(), Stop>
    ensures value { walked result walk.new ≡ shares_of first n place.0 (machine walk.old) }
    ensures kept { Kept walk.old walk.new }
{
    let until = u32::from(n);
    for i in 0..until {
        let x = NodeRef(walk.read(machine::SLOTS, first, i * 2));
        let y = NodeRef(walk.read(machine::SLOTS, first, (until + i) * 2));
        walk.expect(y, x, place)?;
    }
    Ok(())
}

// Declarations that share their targets' types, and the predicate under them.
#[tactic(auto, using(machine::specs::Seen::still, machine::specs::Still::tests, crate::specs::StillWalk::still), unfolding(crate::specs::Root::such_that_of, forms::specs::Forms::then))]
fn such_that(walk: &mut Machine, first: u32, n: u8, place: Place) -> Result<(), Stop>
    ensures value { walked result walk.new ≡ such_that_of walk.old.formula.now walk.old.environment.now first n place.0 (machine walk.old) }
    ensures kept { Kept walk.old walk.new }
{
    shares(walk, first, n, place)?;
    pred(walk, types::MAX_DEPTH)
}

// n targets, n declarations, and a predicate.
#[tactic(auto, using(machine::specs::Seen::still, machine::specs::Still::tests, crate::specs::StillWalk::still), unfolding(crate::specs::Root::becomes_such_of, forms::specs::Forms::then))]
fn becomes_such(walk: &mut Machine, n: u8, place: Place) -> Result<(), Stop>
    ensures value { walked result walk.new ≡ becomes_such_of walk.old.formula.now walk.old.environment.now n place.0 (machine walk.old) }
    ensures kept { Kept walk.old walk.new }
{
    let first = walk.slots;
    targets(walk, n)?;
    walk.declare(n)?;
    such_that(walk, first, n, place)
}

// A whole formula.
#[tactic(auto, using(machine::specs::Seen::still, machine::specs::Still::tests, crate::specs::StillWalk::still), unfolding(crate::specs::Root::formula_of, crate::specs::Root::root_by, machine::specs::Machine::stopped_of, forms::specs::Forms::then))]
pub fn formula(walk: &mut Machine) -> Result<(), Stop>
    ensures value { walked result walk.new ≡ formula_of walk.old.formula.now walk.old.environment.now (machine walk.old) }
    ensures kept { Kept walk.old walk.new }
{
    let at = walk.at;
    match heads::root_head(walk.formula, at).ok_or(Stop::Broken)? {
        Root::Expression => expr(walk, types::LEVELS),
        Root::Predicate => pred(walk, types::LEVELS),
        Root::Becomes(n, e) => {
            walk.paid()?;
            walk.placed(e);
            pairs(walk, n)
        }
        Root::BecomesIn(n, e) => {
            walk.paid()?;
            walk.placed(e);
            becomes_in(walk, n)
        }
        Root::BecomesSuch(n, e) => {
            walk.paid()?;
            walk.placed(e);
            becomes_such(walk, n, at)
        }
    }
}
