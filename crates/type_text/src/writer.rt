// The writer: one pass tests a type record and measures its text, a second writes the text, lending the page's tail to each nested operand.
ghost use Rattle.std.specs.Prelude.{◌≡◌, ℕ, ◌≤◌, length};
ghost use Rattle.types.specs.Record.{type_at};
ghost use Rattle.types.specs.Code.{atom_is};
ghost use Rattle.name_table.specs.Table.{names};
ghost use Rattle.type_grammar.specs.Text.{text_atom};
ghost use Rattle.type_text.specs.Page.{Splice};
ghost use Rattle.type_text.specs.Measure.{signs_of, measured_of};
ghost use Rattle.type_text.specs.Put.{Ready, Written};

use super::page::{copy, spend};
use type_grammar::{CLOSE, INTEGER, OPEN, POWER, TIMES};
use types::{Atom, Fault, Head};

// Where a type record ends and how many bytes were written for it.
#[derive(Clone, Copy)]
pub struct Wrote {
    pub end: usize,
    pub width: usize,
}

// What measuring finds of a type record: where it ends and the room that its text leaves.
#[derive(Clone, Copy)]
pub struct Measured {
    pub end: usize,
    pub room: Option<usize>,
}

// Where a type stands in a text: a product that is a right operand is bracketed.
#[derive(Clone, Copy, PartialEq, Eq)]
pub enum Side {
    Right,
    Plain,
}

// How many bytes of a product's text are neither operand's.
fn signs(side: Side) -> usize
    ensures { result ≡ signs_of side }
{
    match side {
        Side::Right => OPEN.len() + CLOSE.len() + TIMES.len(),
        Side::Plain => TIMES.len(),
    }
}

// A type record, its name table, and how many names this has.
#[derive(Clone, Copy)]
pub(crate) struct Writer<'a> {
    pub(crate) bytes: &'a [u8],
    pub(crate) table: &'a [u8],
    pub(crate) count: u32,
}

impl Writer<'_> {
    // How many bytes an atom's text has.
    #[tactic(auto, unfolding(type_grammar::specs::Text::text_atom, types::specs::Code::atom_is, name_table::specs::Table::Named))]
    fn atom_width(&self, a: Atom) -> usize
        ensures { result ≡ length (text_atom (names self.now.table.now) (atom_is a)) }
    {
        match a {
            Atom::Bool => name_table::BOOLEAN.len(),
            Atom::Integer => INTEGER.len(),
            Atom::Given(n) => match name_table::name_at(self.table, n) {
                Some(name) => name.len(),
                None => 0,
            },
        }
    }

    // What is found of a type record; or the first fault.
    // left: the levels of records that remain.
    pub(crate) fn measure(
        &self,
        at: usize,
        left: u32,
        side: Side,
        room: Option<usize>,
    ) -> Result<Measured, Fault<usize>>
        ensures { result ≡ measured_of (names self.now.table.now) side room (type_at left self.now.count self.now.bytes.now at) }
    {
        let head = types::head_at(self.bytes, self.count, at).ok_or(Fault::Malformed(at))?;
        if left == 0 {
            return Err(Fault::Beyond(at));
        }
        match head {
            Head::Atomic(a, e) => Ok(Measured {
                end: e,
                room: spend(room, self.atom_width(a)),
            }),
            Head::Power(e) => {
                self.measure(
                    e,
                    left - 1,
                    Side::Plain,
                    spend(room, POWER.len() + CLOSE.len()),
                )
            }
            Head::Product(e) => {
                let first = self.measure(e, left - 1, Side::Plain, spend(room, signs(side)))?;
                self.measure(first.end, left - 1, Side::Right, first.room)
            }
        }
    }

    // Puts an atom's text at the page's start.
    fn put_atom(&self, a: Atom, page: &mut [u8]) -> usize
        requires { length (text_atom (names self.now.table.now) (atom_is a)) ≤ length page.old }
        ensures { Splice 0 (text_atom (names self.now.table.now) (atom_is a)) page.old page.new result }
    {
        match a {
            Atom::Bool => copy(page, 0, &name_table::BOOLEAN),
            Atom::Integer => copy(page, 0, &INTEGER),
            Atom::Given(n) => match name_table::name_at(self.table, n) {
                Some(name) => copy(page, 0, name),
                None => 0,
            },
        }
    }

    // Puts a type's text at the page's start.
    pub(crate) fn put(&self, at: usize, left: u32, side: Side, page: &mut [u8]) -> Wrote
        requires { Ready (names self.now.table.now) self.now.count self.now.bytes.now at left side 0 (length page.old) }
        ensures { Written (names self.now.table.now) self.now.count self.now.bytes.now at left side 0 page.old page.new result.end result.width }
    {
        match types::head_at(self.bytes, self.count, at) {
            None => Wrote { end: at, width: 0 },
            Some(Head::Atomic(a, e)) => {
                let n = self.put_atom(a, page);
                Wrote { end: e, width: n }
            }
            Some(Head::Power(e)) => {
                let n = copy(page, 0, &POWER);
                let w = self.put(e, left - 1, Side::Plain, &mut page[n..]);
                let m = n + w.width;
                let k = copy(page, m, &CLOSE);
                Wrote {
                    end: w.end,
                    width: m + k,
                }
            }
            Some(Head::Product(e)) => match side {
                Side::Right => {
                    let n = copy(page, 0, &OPEN);
                    let w = self.put(at, left, Side::Plain, &mut page[n..]);
                    let m = n + w.width;
                    let k = copy(page, m, &CLOSE);
                    Wrote {
                        end: w.end,
                        width: m + k,
                    }
                }
                Side::Plain => {
                    let a = self.put(e, left - 1, Side::Plain, page);
                    let n = a.width;
                    let k = copy(page, n, &TIMES);
                    let m = n + k;
                    let b = self.put(a.end, left - 1, Side::Right, &mut page[m..]);
                    Wrote {
                        end: b.end,
                        width: m + b.width,
                    }
                }
            },
        }
    }
}
