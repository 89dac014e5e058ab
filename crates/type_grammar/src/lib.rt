// The tokens of type text, and the fixed byte strings that the reader compares and the writer writes.
#![tactic(auto)]

ghost use Rattle.std.specs.Prelude.{◌≡◌, ℕ, length};
ghost use Rattle.name_table.specs.Table.{names};
ghost use Rattle.type_grammar.specs.Token.{word_of, word_token_at, token_at};

use types::Atom;

// ℤ
pub const INTEGER: [u8; 3] = [0xE2, 0x84, 0xA4];
// ℙ with its opening bracket
pub const POWER: [u8; 4] = [0xE2, 0x84, 0x99, 0x28];

pub const OPEN: [u8; 1] = [0x28];

pub const CLOSE: [u8; 1] = [0x29];
// ×
pub const TIMES: [u8; 2] = [0xC3, 0x97];

// A token, with the offset after it.
#[derive(Clone, Copy)]
pub enum Token {
    Leaf(Atom, usize),
    Power(usize),
    Open(usize),
    Close(usize),
    Times(usize),
}

// How long the word is that a text starts with.
fn word_width(text: &[u8]) -> usize
    ensures { result ≡ length (word_of text.now) }
{
    text.iter()
        .take_while(|c| name_table::is_word_byte(**c))
        .count()
}

// A word: BOOL, or a name of the table.
#[tactic(auto, using(name_table::specs::Steps::boolean_is), unfolding(crate::specs::Token::word_token_at, crate::specs::Token::name_token))]
fn word_token(table: &[u8], word: &[u8], next: usize) -> Option<Token>
    ensures { result ≡ word_token_at (names table.now) next word.now }
{
    if word == name_table::BOOLEAN.as_slice() {
        return Some(Token::Leaf(Atom::Bool, next));
    }
    let k = name_table::find_name(table, word)?;
    Some(Token::Leaf(Atom::Given(k), next))
}

// The token at an offset; nothing stands past the text's end.
pub fn token_at(text: &[u8], table: &[u8], at: usize) -> Option<Token>
    ensures { result ≡ token_at (names table.now) text.now at }
{
    let rest = text.get(at..)?;
    let first = *rest.first()?;
    if name_table::is_letter(first) {
        let width = word_width(rest);
        return word_token(table, &rest[..width], at + width);
    }
    if rest.starts_with(&INTEGER) {
        return Some(Token::Leaf(Atom::Integer, at + INTEGER.len()));
    }
    if rest.starts_with(&POWER) {
        return Some(Token::Power(at + POWER.len()));
    }
    if rest.starts_with(&OPEN) {
        return Some(Token::Open(at + OPEN.len()));
    }
    if rest.starts_with(&CLOSE) {
        return Some(Token::Close(at + CLOSE.len()));
    }
    if rest.starts_with(&TIMES) {
        return Some(Token::Times(at + TIMES.len()));
    }
    None
}
