// Types as text: `write` turns a type record into its canonical text, `read` a text into its record. Both take a name table and a lent page.
#![tactic(auto)]

mod page;
pub mod reader;
mod writer;

ghost use Rattle.std.specs.Prelude.{◌≡◌};
ghost use Rattle.type_text.specs.declared.Refusal.TheVariants.{At};
ghost use Rattle.type_text.specs.Answer.{write_answer, write_page, read_answer, read_page};

use reader::{Cursor, Reader};
use types::Fault;
use writer::{Side, Writer};

// Why an entry wrote nothing. Bad: the name table, or a position past the page's end.
#[derive(Clone, Copy, PartialEq, Eq)]
pub enum Refusal {
    Bad,
    At(Fault<usize>),
    NoRoom,
}

impl From<Fault<usize>> for Refusal {
    ghost from_gives = { λ f r. r ≡ At f };

    fn from(f: Fault<usize>) -> Refusal {
        Refusal::At(f)
    }
}

// Writes the text of a type record into the page from a position on: the count of bytes written, or a refusal with its place.
pub fn write(bytes: &[u8], table: &[u8], page: &mut [u8], position: usize) -> Result<usize, Refusal>
    ensures value { result ≡ write_answer bytes.now table.now page.old position }
    ensures page_after { page.new ≡ write_page bytes.now table.now page.old position }
{
    if !name_table::table_is_good(table) {
        return Err(Refusal::Bad);
    }
    if position > page.len() {
        return Err(Refusal::Bad);
    }
    let writer = Writer {
        bytes,
        table,
        count: name_table::count_names(table),
    };
    let measured = writer.measure(0, types::LEVELS, Side::Plain, Some(page.len() - position))?;
    if measured.end != bytes.len() {
        return Err(Refusal::At(Fault::Malformed(measured.end)));
    }
    if measured.room.is_none() {
        return Err(Refusal::NoRoom);
    }
    let put = writer.put(0, types::LEVELS, Side::Plain, &mut page[position..]);
    Ok(put.width)
}

// Reads a type's text and writes its record from the page's start: the count of bytes written, or a refusal with its place.
pub fn read(text: &[u8], table: &[u8], page: &mut [u8]) -> Result<usize, Refusal>
    ensures value { result ≡ read_answer text.now table.now page.old }
    ensures page_after { page.new ≡ read_page text.now table.now page.old }
{
    if !name_table::table_is_good(table) {
        return Err(Refusal::Bad);
    }
    let reader = Reader { text, table };
    let c = Cursor::new();
    let found = reader.scan_product(c, Some(page.len()))?;
    if found.end != text.len() {
        return Err(Refusal::At(Fault::Malformed(found.end)));
    }
    if found.depth > types::MAX_DEPTH {
        return Err(Refusal::At(Fault::Beyond(0)));
    }
    if found.room.is_none() {
        return Err(Refusal::NoRoom);
    }
    let laid = reader.lay_product(c, page);
    Ok(laid.width)
}
