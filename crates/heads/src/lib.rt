// What a record begins with: its kind, its operator, its count, and the place where its first part stands. The test of form
// and the walk read expressions, predicates and declarations by these functions; type records have `types::head_at`. Any
// bytes may be given; of a stream that is longer than a place can number, the bytes past the last place are as if they were
// not there.
#![tactic(auto)]

ghost use Rattle.std.specs.Prelude.{◌≡◌, ℕ, ◌+◌, ◌*◌, ◌-◌, ◌<◌, ◌≤◌, length, get_or};
ghost use Rattle.types.specs.Record.{reach};
ghost use Rattle.heads.specs.Heads.{byte_at, word_at, name_at, op_at, count_at, few_at, expr_body, expr_head, pred_body, pred_head, pred_end, decl_body, decl_head, decl_end, target_at, assignment_at, root_head};

use types::{Name, Place};

// An expression's head, with the place after it.
#[derive(Clone, Copy)]
pub enum ExprHead {
    Free(Name, Place),
    Bound(u16, Place),
    Literal(Place),
    Atomic(u8, Place),
    Extension(u16, Place),
    Truth(Place),
    Binary(u8, Place),
    Associative(u8, u16, Place),
    Unary(u8, Place),
    Quantified(u8, u8, Place),
    Ascribed(Place),
    Explicit(Place),
}

// A predicate's head.
#[derive(Clone, Copy)]
pub enum PredHead {
    Constant(Place),
    Variable(Place),
    Relational(u8, Place),
    Connective(Place),
    Junction(u16, Place),
    Negation(Place),
    Quantification(u8, Place),
    Simple(Place),
    Multiple(u16, Place),
    Application(u16, Place),
}

// A declaration's head.
#[derive(Clone, Copy)]
pub enum DeclHead {
    Plain(Place),
    Typed(Place),
    Annotated(Place),
}

// What a whole formula begins with: an expression, a predicate, or one of the three assignments, with the count of its
// targets and the place of the first.
#[derive(Clone, Copy)]
pub enum Root {
    Expression,
    Predicate,
    Becomes(u8, Place),
    BecomesIn(u8, Place),
    BecomesSuch(u8, Place),
}

// ---- parts of a body: what was read and the place after it, or nothing

// The byte at a place.
#[tactic(auto, using(crate::specs::Reads::byte_reached, crate::specs::Reads::byte_ended, crate::specs::Reads::byte_beyond))]
pub fn byte_at(s: &[u8], at: Place) -> Option<(u8, Place)>
    ensures { result ≡ byte_at (reach s.now) at }
{
    let b = *s.get(at.0 as usize)?;
    let e = at.0.checked_add(1)?;
    Some((b, Place(e)))
}

// The two bytes at a place, the lower first.
#[tactic(auto, unfolding(crate::specs::Heads::word_at, crate::specs::Heads::on_part))]
fn word_at(s: &[u8], at: Place) -> Option<(u16, Place)>
    ensures { result ≡ word_at (reach s.now) at }
{
    let (lo, p) = byte_at(s, at)?;
    let (hi, e) = byte_at(s, p)?;
    Some((u16::from_le_bytes([lo, hi]), e))
}

// A name below the count.
#[tactic(auto, unfolding(crate::specs::Heads::name_at, crate::specs::Heads::on_part))]
pub fn name_at(s: &[u8], names: u32, at: Place) -> Option<(u16, Place)>
    ensures { result ≡ name_at names (reach s.now) at }
{
    let (n, e) = word_at(s, at)?;
    (u32::from(n) < names).then_some((n, e))
}

// An operator below a limit.
#[tactic(auto, unfolding(crate::specs::Heads::op_at, crate::specs::Heads::on_part))]
fn op_at(s: &[u8], limit: u8, at: Place) -> Option<(u8, Place)>
    ensures { result ≡ op_at limit (reach s.now) at }
{
    let (o, e) = byte_at(s, at)?;
    (o < limit).then_some((o, e))
}

// A count of two bytes, at least so many.
#[tactic(auto, unfolding(crate::specs::Heads::count_at, crate::specs::Heads::on_part))]
fn count_at(s: &[u8], least: u16, at: Place) -> Option<(u16, Place)>
    ensures { result ≡ count_at least (reach s.now) at }
{
    let (n, e) = word_at(s, at)?;
    (least <= n).then_some((n, e))
}

// A count of one byte, at least 1.
#[tactic(auto, unfolding(crate::specs::Heads::few_at, crate::specs::Heads::on_part))]
pub fn few_at(s: &[u8], at: Place) -> Option<(u8, Place)>
    ensures { result ≡ few_at (reach s.now) at }
{
    let (n, e) = byte_at(s, at)?;
    (1 <= n).then_some((n, e))
}

// ---- heads. No head: none of its class that is well formed stands there; nothing is said of the records below it.
// The kinds and limits are numbers of the format (docs/FORMAT.md, `specs/Heads`): here they become heads. The place stands in each variant: `expr_body`
// and its like read a head's parts and its end in one. The stream and the count of names go apart: the walk reads with 256 and a stream of its
// machine's, and most heads need no count. bare goes down one level, to an explicit type's own expression alone.

// An expression of kind k whose body stands at p; bare: where no 0C may stand.
#[tactic(auto, unfolding(crate::specs::Heads::expr_body, crate::specs::Heads::on_part))]
fn expr_body(s: &[u8], names: u32, bare: bool, k: u8, p: Place) -> Option<ExprHead>
    ensures { result ≡ expr_body names (reach s.now) bare k p }
{
    match k {
        0x01 => {
            let (n, e) = name_at(s, names, p)?;
            Some(ExprHead::Free(Name(u32::from(n)), e))
        }
        0x02 => {
            let (i, e) = word_at(s, p)?;
            Some(ExprHead::Bound(i, e))
        }
        0x03 => Some(ExprHead::Literal(p)),
        0x04 => {
            let (o, e) = op_at(s, 12, p)?;
            Some(ExprHead::Atomic(o, e))
        }
        0x05 => {
            let (n, e) = count_at(s, 1, p)?;
            Some(ExprHead::Extension(n, e))
        }
        0x06 => Some(ExprHead::Truth(p)),
        0x07 => {
            let (o, e) = op_at(s, 27, p)?;
            Some(ExprHead::Binary(o, e))
        }
        0x08 => {
            let (o, q) = op_at(s, 7, p)?;
            let (n, e) = count_at(s, 2, q)?;
            Some(ExprHead::Associative(o, n, e))
        }
        0x09 => {
            let (o, e) = op_at(s, 11, p)?;
            Some(ExprHead::Unary(o, e))
        }
        0x0A => {
            let (o, q) = op_at(s, 3, p)?;
            let (n, e) = few_at(s, q)?;
            Some(ExprHead::Quantified(o, n, e))
        }
        0x0B => Some(ExprHead::Ascribed(p)),
        0x0C => (!bare).then_some(ExprHead::Explicit(p)),
        _ => None,
    }
}

// The head of the expression at a place; names: below the count. bare: where no 0C may stand.
#[tactic(auto, unfolding(crate::specs::Heads::expr_head, crate::specs::Heads::on_part))]
pub fn expr_head(s: &[u8], names: u32, bare: bool, at: Place) -> Option<ExprHead>
    ensures { result ≡ expr_head names (reach s.now) bare at }
{
    let (k, p) = byte_at(s, at)?;
    expr_body(s, names, bare, k, p)
}

#[tactic(auto, unfolding(crate::specs::Heads::pred_body, crate::specs::Heads::on_part))]
fn pred_body(s: &[u8], k: u8, p: Place) -> Option<PredHead>
    ensures { result ≡ pred_body (reach s.now) k p }
{
    match k {
        0x20 => Some(PredHead::Constant(p)),
        0x21 => Some(PredHead::Variable(p)),
        0x22 => {
            let (r, e) = op_at(s, 12, p)?;
            Some(PredHead::Relational(r, e))
        }
        0x23 => Some(PredHead::Connective(p)),
        0x24 => {
            let (n, e) = count_at(s, 2, p)?;
            Some(PredHead::Junction(n, e))
        }
        0x25 => Some(PredHead::Negation(p)),
        0x26 => {
            let (n, e) = few_at(s, p)?;
            Some(PredHead::Quantification(n, e))
        }
        0x27 => Some(PredHead::Simple(p)),
        0x28 => {
            let (n, e) = count_at(s, 1, p)?;
            Some(PredHead::Multiple(n, e))
        }
        0x29 => {
            let (n, e) = word_at(s, p)?;
            Some(PredHead::Application(n, e))
        }
        _ => None,
    }
}

// The head of the predicate at a place.
#[tactic(auto, unfolding(crate::specs::Heads::pred_head, crate::specs::Heads::on_part))]
pub fn pred_head(s: &[u8], at: Place) -> Option<PredHead>
    ensures { result ≡ pred_head (reach s.now) at }
{
    let (k, p) = byte_at(s, at)?;
    pred_body(s, k, p)
}

// The place after a predicate's head.
#[tactic(auto, unfolding(crate::specs::Heads::pred_end))]
pub fn pred_end(h: PredHead) -> Place
    ensures { result ≡ pred_end h }
{
    match h {
        PredHead::Constant(e)
        | PredHead::Variable(e)
        | PredHead::Relational(_, e)
        | PredHead::Connective(e)
        | PredHead::Junction(_, e)
        | PredHead::Negation(e)
        | PredHead::Quantification(_, e)
        | PredHead::Simple(e)
        | PredHead::Multiple(_, e)
        | PredHead::Application(_, e) => e,
    }
}

#[tactic(auto, unfolding(crate::specs::Heads::decl_body))]
fn decl_body(k: u8, p: Place) -> Option<DeclHead>
    ensures { result ≡ decl_body k p }
{
    match k {
        0x10 => Some(DeclHead::Plain(p)),
        0x11 => Some(DeclHead::Typed(p)),
        0x12 => Some(DeclHead::Annotated(p)),
        _ => None,
    }
}

// The head of the declaration at a place.
#[tactic(auto, unfolding(crate::specs::Heads::decl_head, crate::specs::Heads::on_part))]
pub fn decl_head(s: &[u8], at: Place) -> Option<DeclHead>
    ensures { result ≡ decl_head (reach s.now) at }
{
    let (k, p) = byte_at(s, at)?;
    decl_body(k, p)
}

// The place after a declaration's head.
#[tactic(auto, unfolding(crate::specs::Heads::decl_end))]
pub fn decl_end(h: DeclHead) -> Place
    ensures { result ≡ decl_end h }
{
    match h {
        DeclHead::Plain(e) | DeclHead::Typed(e) | DeclHead::Annotated(e) => e,
    }
}

// A target: a record 01 and nothing else.
#[tactic(auto, unfolding(crate::specs::Heads::target_at, crate::specs::Heads::on_part))]
pub fn target_at(s: &[u8], names: u32, at: Place) -> Option<(u16, Place)>
    ensures { result ≡ target_at names (reach s.now) at }
{
    match byte_at(s, at)? {
        (0x01, p) => name_at(s, names, p),
        _ => None,
    }
}

// An assignment of kind k whose count stands at p.
#[tactic(auto, unfolding(crate::specs::Heads::assignment_at, crate::specs::Heads::on_part))]
fn assignment_at(s: &[u8], k: u8, p: Place) -> Option<Root>
    ensures { result ≡ assignment_at (reach s.now) k p }
{
    let (n, e) = few_at(s, p)?;
    match k {
        0x30 => Some(Root::Becomes(n, e)),
        0x31 => Some(Root::BecomesIn(n, e)),
        0x32 => Some(Root::BecomesSuch(n, e)),
        _ => None,
    }
}

// The head of the formula at a place. Of an expression or a predicate only its class is told: its own head says the rest.
#[tactic(auto, unfolding(crate::specs::Heads::root_head, crate::specs::Heads::on_part))]
pub fn root_head(s: &[u8], at: Place) -> Option<Root>
    ensures { result ≡ root_head (reach s.now) at }
{
    let (k, p) = byte_at(s, at)?;
    match k {
        0x00..=0x1F => Some(Root::Expression),
        0x20..=0x2F => Some(Root::Predicate),
        _ => assignment_at(s, k, p),
    }
}
