// Type records, and the kinds of number that the checker keeps apart.
#![tactic(auto)]

ghost use Rattle.std.specs.Prelude.{◌≡◌, ℕ, ◌+◌, ◌≤◌, ◌<◌, length, drop};
ghost use Rattle.types.specs.Record.{reach, given_of, head_of, type_at};
ghost use Rattle.types.specs.Code.{head_is, end_of};

// ---- the limits, each once; as the definitions have them in specs/Limits

// The bytes of a formula, of an environment or of a name table.
pub const MAX_BYTES: usize = 16384;
// The deepest record's depth, where the root has depth 0.
pub const MAX_DEPTH: u32 = 64;
// The levels of records: depths 0 to 64.
pub const LEVELS: u32 = 65;
// The slots of a formula.
pub const MAX_SLOTS: u32 = 1024;
// The declarations open at one place.
pub const MAX_OPENED: u32 = 64;
// The names that an environment or a table can hold.
pub const MAX_NAMES: u32 = 256;
// The nodes of an arena.
pub const MAX_CAPACITY: u32 = 32768;
// The words of the book, behind the arena's three words a node.
pub const BOOK: usize = 4096;

// ---- the kinds of a type record

pub const BOOL: u8 = 0x40;

pub const INTEGER: u8 = 0x41;
// two bytes follow: a name
pub const GIVEN: u8 = 0x42;
// one part follows, or two
pub const POWER: u8 = 0x43;

pub const PRODUCT: u8 = 0x44;

// ---- kinds of number

// A node of the arena.
#[derive(Clone, Copy, PartialEq, Eq)]
pub struct NodeRef(pub u32);

// A name's number.
#[derive(Clone, Copy, PartialEq, Eq)]
pub struct Name(pub u32);

// A byte offset into a stream.
#[derive(Clone, Copy, PartialEq, Eq)]
pub struct Place(pub u32);

// A type without parts.
#[derive(Clone, Copy, PartialEq, Eq)]
pub enum Atom {
    Bool,
    Integer,
    Given(Name),
}

// A node of the arena that is no binding.
#[derive(Clone, Copy, PartialEq, Eq)]
pub enum Node {
    Unknown,
    Leaf(Atom),
    Power(NodeRef),
    Product(NodeRef, NodeRef),
}

// What a type record begins with, and the offset after its body.
#[derive(Clone, Copy, PartialEq, Eq)]
pub enum Head {
    Atomic(Atom, usize),
    Power(usize),
    Product(usize),
}

// A record that is malformed, or one that passes a limit, and where it begins. P: what numbers a place.
#[derive(Clone, Copy, PartialEq, Eq)]
pub enum Fault<P> {
    Malformed(P),
    Beyond(P),
}

// A given set's record: two more bytes, a name below the count.
fn given_at(s: &[u8], names: u32, at: usize) -> Option<Head>
    requires { at < length s.now }
    ensures { head_is result ≡ given_of names at (drop (at + 1) s.now) }
{
    if s.len() - at < 3 {
        return None;
    }
    let n = u32::from(u16::from_le_bytes([s[at + 1], s[at + 2]]));
    (n < names).then_some(Head::Atomic(Atom::Given(Name(n)), at + 3))
}

// The head of the type record at an offset; past the end there is none.
pub fn head_at(s: &[u8], names: u32, at: usize) -> Option<Head>
    ensures { head_is result ≡ head_of names at (drop at s.now) }
{
    match *s.get(at)? {
        BOOL => Some(Head::Atomic(Atom::Bool, at + 1)),
        INTEGER => Some(Head::Atomic(Atom::Integer, at + 1)),
        GIVEN => given_at(s, names, at),
        POWER => Some(Head::Power(at + 1)),
        PRODUCT => Some(Head::Product(at + 1)),
        _ => None,
    }
}

// left: the levels of records that remain, this one's included. At 0 a record that is well formed itself is too deep.
// A power's part and a product's right half are a turn of the loop: a `Result` that each level hands on would be copied at each.
fn end_at(s: &[u8], names: u32, at: Place, left: u32) -> Result<Place, Fault<Place>>
    requires { length s.now ≤ 4294967295 }
    ensures { result ≡ end_of (type_at left names s.now at.0) }
{
    let mut at = at;
    let mut left = left;
    loop {
        if left == 0 {
            return match head_at(s, names, at.0 as usize) {
                Some(_) => Err(Fault::Beyond(at)),
                None => Err(Fault::Malformed(at)),
            };
        }
        left -= 1;
        let Some(head) = head_at(s, names, at.0 as usize) else {
            return Err(Fault::Malformed(at));
        };
        match head {
            Head::Atomic(_, e) => return Ok(Place(e as u32)),
            Head::Power(e) => {
                at = Place(e as u32);
            }
            Head::Product(e) => {
                at = end_at(s, names, Place(e as u32), left)?;
            }
        }
    }
}

// Tests one type record in a stream. Bytes that no place can number are as if they were not there.
pub fn type_end(s: &[u8], names: u32, at: Place, left: u32) -> Result<Place, Fault<Place>>
    ensures { result ≡ end_of (type_at left names (reach s.now) at.0) }
{
    if s.len() > u32::MAX as usize {
        return end_at(&s[..u32::MAX as usize], names, at, left);
    }
    end_at(s, names, at, left)
}
