// The first of a node's three words, as `decode` of `specs/Arena` reads it. The second and the third are the name or the parts.
// Numbers: a node is three words of lent memory, which `decode` reads, and what they are is promised (`make_of`).
#![tactic(auto)]

pub const BOOL: u32 = 0x40;

pub const INTEGER: u32 = 0x41;

pub const GIVEN: u32 = 0x42;

pub const POWER: u32 = 0x43;

pub const PRODUCT: u32 = 0x44;
// an unknown bound to a node
pub const BOUND: u32 = 0x4D;
// an unknown; its third word is its rank, and a binding leaves it
pub const UNKNOWN: u32 = 0x4E;
