// The reader. Its first pass tests a text and measures its type's depth and record; the second writes the record of a text that the first took.
// Product and operand call each other with the remaining depth falling; × is a loop, so that the stack holds brackets only.
ghost use Rattle.std.specs.Prelude.{◌≡◌, ℕ, ◌+◌, ◌≤◌, length, min};
ghost use Rattle.types.specs.Ty.{spell_atom};
ghost use Rattle.types.specs.Code.{atom_is};
ghost use Rattle.name_table.specs.Table.{names};
ghost use Rattle.type_grammar.specs.Token.{token_at};
ghost use Rattle.type_grammar.specs.Parse.{operand_of, product_of};
ghost use Rattle.type_text.specs.Page.{Splice};
ghost use Rattle.type_text.specs.Scan.{deeper_of, closed_at, scanned_of};
ghost use Rattle.type_text.specs.Lay.{led_by, Small, LayReady, Laid};

use super::page::{copy, spend};
use super::writer::Wrote;
use type_grammar::Token;
use types::{Atom, Fault};

// Where the reader stands, and how many operands may still nest: at 0 the next one is refused unread.
// `left` is a byte: it bounds the recursion of every call, and so the stack, whatever a caller writes there.
#[derive(Clone, Copy)]
pub struct Cursor {
    pub at: usize,
    pub left: u8,
}

impl Cursor {
    // The most brackets that may be open at an operand.
    pub const MAX_DEPTH: u8 = 32;

    // At a text's start.
    pub fn new() -> Self
        ensures { (result.at ≡ 0) × (result.left ≡ 33) }
    {
        Cursor {
            at: 0,
            left: Self::MAX_DEPTH + 1,
        }
    }
}

// What is found of a type: the offset after its text, its depth (65 stands for any more) and the room that its record leaves.
#[derive(Clone, Copy)]
pub struct Scanned {
    pub end: usize,
    pub depth: u32,
    pub room: Option<usize>,
}

fn deeper(d: u32) -> u32
    ensures { result ≡ deeper_of d }
{
    d.saturating_add(1).min(types::LEVELS)
}

#[tactic(auto, unfolding(types::specs::Ty::spell_atom, types::specs::Code::atom_is))]
fn atom_record_width(a: Atom) -> usize
    ensures { result ≡ length (spell_atom (atom_is a)) }
{
    match a {
        Atom::Bool | Atom::Integer => 1,
        Atom::Given(_) => 3,
    }
}

// ---- the second pass

// The kinds are the format's (docs/FORMAT.md), as `types::head_at` reads them.

const KIND_BOOL: [u8; 1] = [0x40];

const KIND_INTEGER: [u8; 1] = [0x41];

const KIND_GIVEN: u8 = 0x42;

const KIND_POWER: [u8; 1] = [0x43];

const KIND_PRODUCT: u8 = 0x44;

// Moves the first n bytes of a page one place on, and puts a kind before them.
#[tactic(auto, using(crate::specs::Lay::lead_is))]
fn lead(page: &mut [u8], n: usize, kind: u8)
    requires { n + 1 ≤ length page.old }
    ensures { page.new ≡ led_by kind n page.old }
{
    page[..n + 1].rotate_right(1);
    page[0] = kind;
}

fn lay_atom(a: Atom, page: &mut [u8]) -> usize
    requires a_in_bounds { length (spell_atom (atom_is a)) ≤ length page.old }
    requires small { Small (atom_is a) }
    ensures { Splice 0 (spell_atom (atom_is a)) page.old page.new result }
{
    match a {
        Atom::Bool => copy(page, 0, &KIND_BOOL),
        Atom::Integer => copy(page, 0, &KIND_INTEGER),
        Atom::Given(name) => {
            let [low, high, ..] = name.0.to_le_bytes();
            copy(page, 0, &[KIND_GIVEN, low, high])
        }
    }
}

// A text and its name table.
#[derive(Clone, Copy)]
pub struct Reader<'a> {
    pub text: &'a [u8],
    pub table: &'a [u8],
}

impl Reader<'_> {
    fn token(&self, at: usize) -> Option<Token>
        ensures { result ≡ token_at (names self.now.table.now) self.now.text.now at }
    {
        type_grammar::token_at(self.text, self.table, at)
    }

    // The offset after the closing bracket that is due.
    #[tactic(auto, unfolding(crate::specs::Scan::closed_at))]
    fn close(&self, at: usize) -> Result<usize, Fault<usize>>
        ensures { result ≡ closed_at at (token_at (names self.now.table.now) self.now.text.now at) }
    {
        match self.token(at) {
            Some(Token::Close(q)) => Ok(q),
            _ => Err(Fault::Malformed(at)),
        }
    }

    // What is found of an operand's type; or the first fault.
    #[cycle(scanning)]
    fn scan_operand(&self, c: Cursor, room: Option<usize>) -> Result<Scanned, Fault<usize>>
        ensures { result ≡ scanned_of room (operand_of c.left (names self.now.table.now) self.now.text.now c.at) }
    {
        if c.left == 0 {
            return Err(Fault::Beyond(c.at));
        }
        match self.token(c.at) {
            Some(Token::Leaf(a, e)) => Ok(Scanned {
                end: e,
                depth: 0,
                room: spend(room, atom_record_width(a)),
            }),
            Some(Token::Power(q)) => {
                let inside = Cursor {
                    at: q,
                    left: c.left - 1,
                };
                let found = self.scan_product(inside, spend(room, 1))?;
                Ok(Scanned {
                    end: self.close(found.end)?,
                    depth: deeper(found.depth),
                    room: found.room,
                })
            }
            Some(Token::Open(q)) => {
                let inside = Cursor {
                    at: q,
                    left: c.left - 1,
                };
                let found = self.scan_product(inside, room)?;
                Ok(Scanned {
                    end: self.close(found.end)?,
                    ..found
                })
            }
            _ => Err(Fault::Malformed(c.at)),
        }
    }

    // The same of a product.
    #[cycle(scanning)]
    pub fn scan_product(&self, c: Cursor, room: Option<usize>) -> Result<Scanned, Fault<usize>>
        ensures { result ≡ scanned_of room (product_of c.left (names self.now.table.now) self.now.text.now c.at) }
    {
        let mut found = self.scan_operand(c, room)?;
        while let Some(Token::Times(q)) = self.token(found.end) {
            let next = self.scan_operand(Cursor { at: q, ..c }, spend(found.room, 1))?;
            found = Scanned {
                depth: deeper(found.depth.max(next.depth)),
                ..next
            };
        }
        Ok(found)
    }

    #[cycle(laying)]
    fn lay_operand(&self, c: Cursor, page: &mut [u8]) -> Wrote
        requires { LayReady (operand_of c.left (names self.now.table.now) self.now.text.now c.at) 0 (length page.old) }
        ensures { Laid (operand_of c.left (names self.now.table.now) self.now.text.now c.at) 0 page.old page.new result.end result.width }
    {
        match self.token(c.at) {
            Some(Token::Leaf(a, e)) => {
                let n = lay_atom(a, page);
                Wrote { end: e, width: n }
            }
            Some(Token::Power(q)) => {
                let inside = Cursor {
                    at: q,
                    left: c.left - 1,
                };
                let n = copy(page, 0, &KIND_POWER);
                let w = self.lay_product(inside, &mut page[n..]);
                Wrote {
                    end: self.close(w.end).unwrap_or(w.end),
                    width: n + w.width,
                }
            }
            Some(Token::Open(q)) => {
                let inside = Cursor {
                    at: q,
                    left: c.left - 1,
                };
                let w = self.lay_product(inside, page);
                Wrote {
                    end: self.close(w.end).unwrap_or(w.end),
                    width: w.width,
                }
            }
            _ => Wrote {
                end: c.at,
                width: 0,
            },
        }
    }

    // Each × moves the record so far one place on. The type is at most 64 deep by now, so no byte moves more often than that.
    #[cycle(laying)]
    pub(crate) fn lay_product(&self, c: Cursor, page: &mut [u8]) -> Wrote
        requires { LayReady (product_of c.left (names self.now.table.now) self.now.text.now c.at) 0 (length page.old) }
        ensures { Laid (product_of c.left (names self.now.table.now) self.now.text.now c.at) 0 page.old page.new result.end result.width }
    {
        let w = self.lay_operand(c, page);
        let mut end = w.end;
        let mut width = w.width;
        while let Some(Token::Times(q)) = self.token(end) {
            lead(page, width, KIND_PRODUCT);
            let m = width + 1;
            let b = self.lay_operand(Cursor { at: q, ..c }, &mut page[m..]);
            end = b.end;
            width = m + b.width;
        }
        Wrote { end, width }
    }
}
