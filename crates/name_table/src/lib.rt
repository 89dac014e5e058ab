// Names, and the tables that number them: a table is a row of records, each a byte of kind (80 and the name's length) and the name.
// Every function answers on any bytes; `table_is_good` says whether a table follows the rules, and only then do the numbers mean names.
#![tactic(auto)]

ghost use Rattle.std.specs.Prelude.{◌≡◌, ℕ, ◌<◌, length};
ghost use Rattle.std.specs.Iterator.{YieldsFirstBy, item_count};
ghost use Rattle.name_table.specs.Words.{letter, word_byte, is_word};
ghost use Rattle.name_table.specs.Table.{names, find, read_record, records_left, Named, good_name, good_table};

use types::Name;

// The word that no name may be: the text of the type of truth values.
pub const BOOLEAN: [u8; 4] = [0x42, 0x4F, 0x4F, 0x4C];

// What is left of a table, record by record: each a kind and the name behind it, which ends at the table's end if the kind says more.
#[derive(Drop)]
struct Records<'a>(&'a [u8]);

impl<'a> Iterator for Records<'a> {
    type Item = (u8, &'a [u8]);

    ghost next_gives = { YieldsFirstBy read_record records_left };

    ghost remaining = { item_count records_left };

    fn next(&mut self) -> Option<(u8, &'a [u8])> {
        let (kind, rest) = self.0.split_first()?;
        let (name, rest) = rest.split_at(usize::from(*kind).saturating_sub(128).min(rest.len()));
        self.0 = rest;
        Some((*kind, name))
    }
}

#[tactic(auto, using(crate::specs::Steps::letter_is))]
pub fn is_letter(c: u8) -> bool
    ensures { result ≡ letter c }
{
    c.is_ascii_alphabetic()
}

pub fn is_word_byte(c: u8) -> bool
    ensures { result ≡ word_byte c }
{
    c.is_ascii_alphanumeric() || c == b'_'
}

// A letter, then letters, digits and underscores.
pub fn is_word(w: &[u8]) -> bool
    ensures { result ≡ is_word w.now }
{
    match w.split_first() {
        Some((first, rest)) => is_letter(*first) && rest.iter().all(|c| is_word_byte(*c)),
        None => false,
    }
}

// The number of a word in a table.
pub fn find_name(table: &[u8], word: &[u8]) -> Option<Name>
    ensures { result ≡ find (names table.now) word.now }
{
    let i = Records(table)
        .take(types::MAX_NAMES as usize)
        .position(|(_, name)| name == word)?;
    Some(Name(i as u32))
}

// The name of a number: its bytes as they stand in the table, of which they are a part.
pub fn name_at(table: &[u8], n: Name) -> Option<&[u8]>
    ensures { Named table.now n.0 result }
{
    let (_, name) = Records(table)
        .take(types::MAX_NAMES as usize)
        .nth(n.0 as usize)?;
    Some(name)
}

// How many names a table has.
pub fn count_names(table: &[u8]) -> u32
    ensures { result ≡ length (names table.now) }
{
    Records(table).take(types::MAX_NAMES as usize).count() as u32
}

// The name of number i in a table is a word, is not BOOL, and is no earlier name again.
#[tactic(auto, using(crate::specs::Steps::boolean_is), unfolding(crate::specs::Table::good_name, crate::specs::Table::is_at))]
fn name_is_good(table: &[u8], i: u32, word: &[u8]) -> bool
    ensures { result ≡ good_name (names table.now) i word.now }
{
    is_word(word) && word != BOOLEAN.as_slice() && find_name(table, word) == Some(Name(i))
}

// A table of at most 256 good names in at most 16,384 bytes.
pub fn table_is_good(table: &[u8]) -> bool
    ensures { result ≡ good_table table.now }
{
    table.len() <= types::MAX_BYTES
        && Records(table).enumerate().all(|(i, (kind, name))| {
            i < types::MAX_NAMES as usize
                && (0x81..=0xC0).contains(&kind)
                && name.len() == usize::from(kind) - 128
                && name_is_good(table, i as u32, name)
        })
}
