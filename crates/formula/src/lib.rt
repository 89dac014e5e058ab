// The form of formulas and environments: what streams of bytes spell a formula or an environment inside the limits,
// and the first fault of any other stream.
#![tactic(auto)]

ghost use Rattle.std.specs.Prelude.{◌≡◌, ◌≤◌};
ghost use Rattle.types.specs.Record.{reach};
ghost use Rattle.types.specs.Limits.{max_names};
ghost use Rattle.formula.specs.declared.FormError.TheVariants.{At};
ghost use Rattle.formula.specs.Reader.{stood, own_of, declare_of, type_in, spelling_in, forget};
ghost use Rattle.formula.specs.Parse.{decl_at, decls_at, expr_at, exprs_at, pred_at, preds_at, target_in, targets_at, pair_in, pairs_at, formula_at, parse_of, form_of};
ghost use Rattle.formula.specs.EnvParse.{entry_at, environment_of};
ghost use Rattle.formula.specs.EnvTold.{answer_of, told_of};
ghost use Rattle.formula.specs.EnvSteps.{entered_at};

use heads::{DeclHead, ExprHead, PredHead, Root};
use types::{Fault, LEVELS, MAX_BYTES, MAX_NAMES, MAX_OPENED, MAX_SLOTS, Place};

// Where the reader stands: the next byte, the slots so far, the declarations that are open.
#[derive(Clone, Copy)]
pub struct St {
    pub at: Place,
    pub slots: u32,
    pub opened: u32,
}

// ---- the reader's state, which each reading moves on in place: as a value, handed on by every record, it was copied at each (literals 3.3 s for 1.0 s).
// What stands there after a fault says nothing (`stood`).

// A record that owns a slot, and whose head ends at e.
#[tactic(auto, unfolding(crate::specs::Reader::own_of, crate::specs::Reader::stood))]
fn own(e: Place, st: &mut St) -> Result<(), Fault<Place>>
    ensures { stood result st.new ≡ own_of e st.old }
{
    if st.slots < MAX_SLOTS {
        st.at = e;
        st.slots += 1;
        return Ok(());
    }
    Err(Fault::Beyond(st.at))
}

// A declaration owns a slot and is open from here on.
#[tactic(auto, unfolding(crate::specs::Reader::declare_of, crate::specs::Reader::own_of, crate::specs::Reader::stood))]
fn declare(e: Place, st: &mut St) -> Result<(), Fault<Place>>
    ensures { stood result st.new ≡ declare_of e st.old }
{
    if st.opened < MAX_OPENED {
        st.opened += 1;
        return own(e, st);
    }
    Err(Fault::Beyond(st.at))
}

// A stream, and the count of names below which its names lie.
#[derive(Clone, Copy)]
struct Reader<'a> {
    s: &'a [u8],
    names: u32,
}

impl Reader<'_> {
    // ---- types and declarations. left: the levels of records that remain, the next record's included

    #[tactic(auto, using(crate::specs::Steps::type_code), unfolding(crate::specs::Steps::type_out, crate::specs::Reader::moved, crate::specs::Reader::stood))]
    fn read_type(&self, left: u32, st: &mut St) -> Result<(), Fault<Place>>
        ensures { stood result st.new ≡ forget (type_in self.now.names (reach self.now.s.now) left st.old) }
    {
        st.at = types::type_end(self.s, self.names, st.at, left)?;
        Ok(())
    }

    // A type, or 4F.
    #[tactic(auto, using(crate::specs::Steps::spelling_code), unfolding(crate::specs::Steps::spelling_out, crate::specs::Reader::moved, crate::specs::Reader::stood))]
    fn read_spelling(&self, left: u32, st: &mut St) -> Result<(), Fault<Place>>
        ensures { stood result st.new ≡ forget (spelling_in self.now.names (reach self.now.s.now) left st.old) }
    {
        match heads::byte_at(self.s, st.at) {
            Some((0x4F, at)) => {
                if left == 0 {
                    return Err(Fault::Beyond(st.at));
                }
                st.at = at;
                Ok(())
            }
            _ => self.read_type(left, st),
        }
    }

    #[tactic(auto, using(crate::specs::Steps::decl_code), unfolding(crate::specs::Steps::record_out, crate::specs::Steps::decl_out, crate::specs::Reader::after, crate::specs::Reader::stood))]
    fn read_decl(&self, left: u32, st: &mut St) -> Result<(), Fault<Place>>
        ensures { stood result st.new ≡ forget (decl_at self.now.names (reach self.now.s.now) left st.old) }
    {
        let h = heads::decl_head(self.s, st.at).ok_or(Fault::Malformed(st.at))?;
        if left == 0 {
            return Err(Fault::Beyond(st.at));
        }
        match h {
            DeclHead::Plain(e) => declare(e, st),
            DeclHead::Typed(e) => {
                declare(e, st)?;
                self.read_type(left - 1, st)
            }
            DeclHead::Annotated(e) => {
                declare(e, st)?;
                self.read_spelling(left - 1, st)
            }
        }
    }

    // Each row of records is read by a `for` of its own. In `read_exprs` and `read_preds` a closure handed to one function for all would call back into
    // the cycle `reading`, and needs clauses of its own there, longer than the loop. The other three have the same form: of a state that a closure changes
    // nothing is known after `try_for_each` (as at `machine::declare`), and over a state by value `try_fold`, tried in `read_targets`, did not close.
    #[tactic(auto, using(crate::specs::Steps::many_steps), unfolding(crate::specs::Parse::decls_at, crate::specs::Reader::stood))]
    fn read_decls(&self, left: u32, n: u8, st: &mut St) -> Result<(), Fault<Place>>
        ensures { stood result st.new ≡ forget (decls_at self.now.names (reach self.now.s.now) left n st.old) }
    {
        for _ in 0..n {
            self.read_decl(left, st)?;
        }
        Ok(())
    }

    // ---- expressions and predicates

    // bare: where no 0C may stand.
    #[cycle(reading)]
    #[tactic(auto, using(crate::specs::Steps::expr_code), unfolding(crate::specs::Steps::record_out, crate::specs::Steps::expr_out, crate::specs::Reader::after, crate::specs::Reader::moved, crate::specs::Reader::closed_of, crate::specs::Reader::closed, crate::specs::Reader::stood, crate::specs::Parse::exprs_at))]
    fn read_expr(&self, bare: bool, left: u32, st: &mut St) -> Result<(), Fault<Place>>
        ensures { stood result st.new ≡ forget (expr_at left self.now.names (reach self.now.s.now) bare st.old) }
    {
        let h = heads::expr_head(self.s, self.names, bare, st.at).ok_or(Fault::Malformed(st.at))?;
        if left == 0 {
            return Err(Fault::Beyond(st.at));
        }
        let l = left - 1;
        match h {
            ExprHead::Free(_, e)
            | ExprHead::Bound(_, e)
            | ExprHead::Literal(e)
            | ExprHead::Atomic(_, e) => own(e, st),
            ExprHead::Extension(n, e) => {
                own(e, st)?;
                self.read_exprs(l, n, st)
            }
            ExprHead::Truth(e) => {
                own(e, st)?;
                self.read_pred(l, st)
            }
            ExprHead::Binary(_, e) => {
                own(e, st)?;
                self.read_expr(false, l, st)?;
                self.read_expr(false, l, st)
            }
            ExprHead::Associative(_, n, e) => {
                own(e, st)?;
                self.read_exprs(l, n, st)
            }
            ExprHead::Unary(_, e) => {
                own(e, st)?;
                self.read_expr(false, l, st)
            }
            ExprHead::Quantified(_, n, e) => {
                let opened = st.opened;
                own(e, st)?;
                self.read_decls(l, n, st)?;
                self.read_pred(l, st)?;
                self.read_expr(false, l, st)?;
                st.opened = opened;
                Ok(())
            }
            ExprHead::Ascribed(e) => {
                own(e, st)?;
                self.read_expr(false, l, st)?;
                self.read_spelling(l, st)
            }
            ExprHead::Explicit(e) => {
                st.at = e;
                self.read_type(l, st)?;
                self.read_expr(true, l, st)
            }
        }
    }

    #[cycle(reading)]
    #[tactic(auto, using(crate::specs::Steps::many_steps), unfolding(crate::specs::Parse::exprs_at, crate::specs::Reader::stood))]
    fn read_exprs(&self, left: u32, n: u16, st: &mut St) -> Result<(), Fault<Place>>
        ensures { stood result st.new ≡ forget (exprs_at left self.now.names (reach self.now.s.now) n st.old) }
    {
        for _ in 0..n {
            self.read_expr(false, left, st)?;
        }
        Ok(())
    }

    #[cycle(reading)]
    #[tactic(auto, using(crate::specs::Steps::pred_code), unfolding(crate::specs::Steps::record_out, crate::specs::Steps::pred_out, heads::specs::Heads::pred_end, crate::specs::Reader::after, crate::specs::Reader::moved, crate::specs::Reader::closed_of, crate::specs::Reader::closed, crate::specs::Reader::stood, crate::specs::Parse::exprs_at, crate::specs::Parse::preds_at))]
    fn read_pred(&self, left: u32, st: &mut St) -> Result<(), Fault<Place>>
        ensures { stood result st.new ≡ forget (pred_at left self.now.names (reach self.now.s.now) st.old) }
    {
        let h = heads::pred_head(self.s, st.at).ok_or(Fault::Malformed(st.at))?;
        if left == 0 {
            return Err(Fault::Beyond(st.at));
        }
        let l = left - 1;
        st.at = heads::pred_end(h);
        match h {
            PredHead::Constant(_) | PredHead::Variable(_) => Ok(()),
            PredHead::Relational(..) => {
                self.read_expr(false, l, st)?;
                self.read_expr(false, l, st)
            }
            PredHead::Connective(_) => {
                self.read_pred(l, st)?;
                self.read_pred(l, st)
            }
            PredHead::Junction(n, _) => self.read_preds(l, n, st),
            PredHead::Negation(_) => self.read_pred(l, st),
            PredHead::Quantification(n, _) => {
                let opened = st.opened;
                self.read_decls(l, n, st)?;
                self.read_pred(l, st)?;
                st.opened = opened;
                Ok(())
            }
            PredHead::Simple(_) => self.read_expr(false, l, st),
            PredHead::Multiple(n, _) | PredHead::Application(n, _) => self.read_exprs(l, n, st),
        }
    }

    #[cycle(reading)]
    #[tactic(auto, using(crate::specs::Steps::many_steps), unfolding(crate::specs::Parse::preds_at, crate::specs::Reader::stood))]
    fn read_preds(&self, left: u32, n: u16, st: &mut St) -> Result<(), Fault<Place>>
        ensures { stood result st.new ≡ forget (preds_at left self.now.names (reach self.now.s.now) n st.old) }
    {
        for _ in 0..n {
            self.read_pred(left, st)?;
        }
        Ok(())
    }

    // ---- formulas

    #[tactic(auto, using(crate::specs::Steps::target_code), unfolding(crate::specs::Steps::target_out, crate::specs::Reader::stood))]
    fn read_target(&self, st: &mut St) -> Result<(), Fault<Place>>
        ensures { stood result st.new ≡ forget (target_in self.now.names (reach self.now.s.now) st.old) }
    {
        let (_, e) = heads::target_at(self.s, self.names, st.at).ok_or(Fault::Malformed(st.at))?;
        own(e, st)
    }

    #[tactic(auto, using(crate::specs::Steps::many_steps), unfolding(crate::specs::Parse::targets_at, crate::specs::Reader::stood))]
    fn read_targets(&self, n: u8, st: &mut St) -> Result<(), Fault<Place>>
        ensures { stood result st.new ≡ forget (targets_at self.now.names (reach self.now.s.now) n st.old) }
    {
        for _ in 0..n {
            self.read_target(st)?;
        }
        Ok(())
    }

    // A target and its value.
    #[tactic(auto, using(crate::specs::Steps::pair_code), unfolding(crate::specs::Reader::after, crate::specs::Reader::stood))]
    fn read_pair(&self, left: u32, st: &mut St) -> Result<(), Fault<Place>>
        ensures { stood result st.new ≡ forget (pair_in left self.now.names (reach self.now.s.now) st.old) }
    {
        self.read_target(st)?;
        self.read_expr(false, left, st)
    }

    #[tactic(auto, using(crate::specs::Steps::many_steps), unfolding(crate::specs::Parse::pairs_at, crate::specs::Reader::stood))]
    fn read_pairs(&self, left: u32, n: u8, st: &mut St) -> Result<(), Fault<Place>>
        ensures { stood result st.new ≡ forget (pairs_at left self.now.names (reach self.now.s.now) n st.old) }
    {
        for _ in 0..n {
            self.read_pair(left, st)?;
        }
        Ok(())
    }

    // The record at the start, with all that stands below it.
    #[tactic(auto, using(crate::specs::Steps::formula_code), unfolding(crate::specs::Steps::root_out, crate::specs::Reader::after, crate::specs::Reader::moved, crate::specs::Reader::stood))]
    fn read_formula(&self, st: &mut St) -> Result<(), Fault<Place>>
        ensures { stood result st.new ≡ forget (formula_at self.now.names (reach self.now.s.now) st.old) }
    {
        let h = heads::root_head(self.s, st.at).ok_or(Fault::Malformed(st.at))?;
        match h {
            Root::Expression => self.read_expr(false, LEVELS, st),
            Root::Predicate => self.read_pred(LEVELS, st),
            Root::Becomes(n, e) => {
                st.at = e;
                self.read_pairs(LEVELS - 1, n, st)
            }
            Root::BecomesIn(n, e) => {
                st.at = e;
                self.read_targets(n, st)?;
                self.read_expr(false, LEVELS - 1, st)
            }
            Root::BecomesSuch(n, e) => {
                st.at = e;
                self.read_targets(n, st)?;
                self.read_decls(LEVELS - 1, n, st)?;
                self.read_pred(LEVELS - 1, st)
            }
        }
    }
}

// Why a stream is no formula or no environment: it has over 16,384 bytes, or a first fault.
#[derive(Clone, Copy)]
pub enum FormError {
    TooLong,
    At(Fault<Place>),
}

impl From<Fault<Place>> for FormError {
    ghost from_gives = { λ f e. e ≡ At f };

    fn from(fault: Fault<Place>) -> FormError {
        FormError::At(fault)
    }
}

// Tests whether a stream spells a formula inside the limits; if not, where it first fails.
#[tactic(auto, using(crate::specs::Steps::parse_long, crate::specs::Steps::parse_code), unfolding(crate::specs::Steps::whole_out, crate::specs::Reader::stood))]
pub fn check_formula(s: &[u8], names: u32) -> Result<(), FormError>
    ensures { result ≡ form_of (parse_of names s.now) }
{
    if s.len() > MAX_BYTES {
        return Err(FormError::TooLong);
    }
    let mut st = St {
        at: Place(0),
        slots: 0,
        opened: 0,
    };
    Reader { s, names }.read_formula(&mut st)?;
    if (st.at.0 as usize) < s.len() {
        return Err(FormError::At(Fault::Malformed(st.at)));
    }
    Ok(())
}

// ---- environments

// What the test of an environment answers: its form, and for each name the place of its type plus 1, or 0.
// After a fault, or for a stream that is too long, every cell is 0: `answer_of` and must-fail/table_after_fault speak of the table then too, so that it
// stands beside the form. A cell is the word that the book gets (`machine::ENTRIES`): as an Option it would be turned into that word by
// `runner::enter_types`, and `answer_of` counts so.
#[derive(Clone, Copy)]
pub struct Environment {
    pub form: Result<(), FormError>,
    pub types: [u32; 256],
}

// An entry: its name, the place of its type, and where it ends.
#[derive(Clone, Copy)]
struct Entered {
    name: u16,
    at: Place,
    end: Place,
}

impl Reader<'_> {
    // An entry's head: 50 and a name below the count.
    #[tactic(auto, unfolding(crate::specs::EnvParse::entry_at, heads::specs::Heads::on_part))]
    fn entry_at(&self, at: Place) -> Option<(u16, Place)>
        ensures { result ≡ entry_at self.now.names (reach self.now.s.now) at }
    {
        match heads::byte_at(self.s, at)? {
            (0x50, p) => heads::name_at(self.s, self.names, p),
            _ => None,
        }
    }

    // The entry at a place. types: the table of the entries before it.
    #[tactic(auto, using(crate::specs::EnvSteps::entry_below), unfolding(crate::specs::EnvSteps::entered_at, crate::specs::EnvSteps::entered_by, heads::specs::Heads::on_part))]
    fn read_entry(&self, types: &[u32; 256], at: Place) -> Result<Entered, Fault<Place>>
        requires { self.now.names ≤ max_names }
        ensures { result ≡ entered_at self.now.names (reach self.now.s.now) types.now at }
    {
        let (name, e) = self.entry_at(at).ok_or(Fault::Malformed(at))?;
        if types[usize::from(name)] != 0 {
            return Err(Fault::Malformed(at));
        }
        let end = types::type_end(self.s, self.names, e, LEVELS - 1)?;
        Ok(Entered { name, at: e, end })
    }
}

// The table of a stream that is an environment inside the limits. A count over 256 counts as 256.
fn table(s: &[u8], names: u32) -> Result<[u32; 256], FormError>
    ensures { result ≡ told_of (environment_of names s.now) }
{
    if s.len() > MAX_BYTES {
        return Err(FormError::TooLong);
    }
    let names = names.min(MAX_NAMES);
    let reader = Reader { s, names };
    let mut types = [0; 256];
    let mut at = Place(0);
    while (at.0 as usize) < s.len() {
        let entered = reader.read_entry(&types, at)?;
        types[usize::from(entered.name)] = entered.at.0 + 1;
        at = entered.end;
    }
    Ok(types)
}

// Tests whether a stream spells an environment inside the limits; if not, where it first fails. A count over 256 counts as 256.
#[tactic(auto, using(crate::specs::EnvTold::answer_told), unfolding(crate::specs::EnvTold::answer_by, crate::specs::EnvTold::blank))]
pub fn check_environment(s: &[u8], names: u32) -> Environment
    ensures { result ≡ answer_of (environment_of names s.now) }
{
    match table(s, names) {
        Ok(types) => Environment {
            form: Ok(()),
            types,
        },
        Err(error) => Environment {
            form: Err(error),
            types: [0; 256],
        },
    }
}
