// The walk's machine: what it reads, the memory that is lent to it, and the steps that every walk is made of. Arena and
// book are words lent apart, and problems go straight into the output. A step that stops the walk is an `Err`.
#![tactic(auto)]

ghost use Rattle.std.specs.Prelude.{◌≡◌, ℕ, ◌+◌, ◌*◌, ◌-◌, ◌<◌, ◌≤◌, List, length, get_or, set};
ghost use Rattle.types.specs.Code.{atom_is};
ghost use Rattle.unification.specs.Arena.{solved};
ghost use Rattle.unifier.specs.Answers.{told, spared};
ghost use Rattle.machine.specs.Machine.{on_st, start_of, placed_of, passed_of, gave_of, bound_of, paid_of, enter_of, grown_of, cell, word_of, put_of, emit_of, two_of, four_of, list_of, make_of, expect_of, leave_of, remember_of, enrol_of, push_bound_of};
ghost use Rattle.machine.specs.Types.{skip_of, atom_of, lift_of, free_of, bound_identifier_of, note_of, noted_of, notes_of, meets_of, spelled_of, ascription_of, claim_of, declaration_by, declaration_of, declare_of};
ghost use Rattle.operators.specs.Scripts.{numbered};
ghost use Rattle.machine.specs.Scripts.{chosen_of, place_of, item_of, play_of, play_numbered, parts_of};
ghost use Rattle.machine.specs.Seen.{machine, walked, unmade, halted, made_of, problem_number, name_number, Kept};

use heads::DeclHead;
use makers::MakeError;
use operators::{Item, Operand, Script, Seat};
use types::{Atom, Head, Name, Node, NodeRef, Place};
use unifier::{Halt, Verdict};

// ---- the machine

// Why a walk stops: the arena is full, the units are spent, or what cannot happen once the form is tested.
#[derive(Clone, Copy, PartialEq, Eq)]
pub enum Stop {
    Full,
    Spent,
    Broken,
}

impl From<MakeError> for Stop {
    ghost from_gives = { λ e stop. stop ≡ unmade e };

    fn from(error: MakeError) -> Stop {
        match error {
            MakeError::Full => Stop::Full,
            MakeError::Broken => Stop::Broken,
        }
    }
}

impl From<Halt> for Stop {
    ghost from_gives = { λ h stop. stop ≡ halted h };

    fn from(halt: Halt) -> Stop {
        match halt {
            Halt::Spent => Stop::Spent,
            Halt::Broken => Stop::Broken,
        }
    }
}

// `Kept` stands at each step: an invariant speaks of one value, and this of a machine before and after.
#[derive(Drop)]
pub struct Machine<'a, 'b> {
    pub formula: &'a [u8],
    pub environment: &'a [u8],
    pub arena: &'a mut [u32],
    pub book: &'a mut [u32],
    pub output: &'b mut [u8],
    // the next byte of the formula
    pub at: Place,
    // the place of the expression walked last, which a comparison with it is listed at
    pub from: Place,
    // the reference of what was walked or made last
    pub last: NodeRef,
    // the nodes of the arena
    pub nodes: u32,
    // the units left
    pub budget: u64,
    // the slots taken, the names met that the environment lacks, the declarations around
    pub slots: u32,
    pub met: u32,
    pub bound: u32,
    // the bytes written into the output, and whether one found no room: two fields, for of a machine that is over `machine` still reads the bytes
    // before it (`over_of`)
    pub bytes: usize,
    pub over: bool,
}

// ---- the book: areas of the words behind the arena, each by where it begins and the words of an entry
// Arena and book stand in lent words of one layout, with no heap; what is left in those words is settled (`call_of` of crate `runner`).
// What may be missing is a number here, and no Option: the book is words of lent memory, all zero at first.

#[derive(Clone, Copy)]
pub struct Area {
    pub start: u32,
    pub stride: u8,
}

// a slot: reference, place
pub const SLOTS: Area = Area {
    start: 0,
    stride: 2,
};
// a name met that the environment lacks: name, reference, place
pub const ROW: Area = Area {
    start: 2048,
    stride: 3,
};
// by name: 1 once it has a reference, and the reference
pub const REFS: Area = Area {
    start: 2816,
    stride: 2,
};
// the declarations around, innermost last: reference
pub const OPENED: Area = Area {
    start: 3328,
    stride: 1,
};
// by name: 0, or the place of its type in the environment plus 1
pub const ENTRIES: Area = Area {
    start: 3392,
    stride: 1,
};

// Where word k of entry j of an area stands in the book.
fn cell(area: Area, j: u32, k: u32) -> usize
    ensures value { result ≡ cell area.start area.stride j k }
    ensures upper_bound { result < 17592186044416 }
{
    area.start as usize + j as usize * usize::from(area.stride) + k as usize
}

// ---- problems

#[derive(Clone, Copy, PartialEq, Eq)]
pub enum Problem {
    Mismatch = 0,
    Circular = 1,
    UntypedExpression = 2,
    UntypedName = 3,
    DanglingIndex = 4,
    Application = 5,
}

// A problem's number.
fn number(problem: Problem) -> u8
    ensures { result ≡ problem_number problem }
{
    problem as u8
}

// What stands for a problem's name, where it has one, and where it has none.
fn name_word(name: Option<Name>) -> u32
    ensures { result ≡ name_number name }
{
    name.map_or(0xFFFF, |x| x.0)
}

impl<'a, 'b> Machine<'a, 'b> {
    // The machine that a walk begins with.
    #[tactic(auto, using(crate::specs::Seen::still, crate::specs::Still::tests), unfolding(crate::specs::Machine::start_of, forms::specs::Forms::then))]
    pub fn new(
        formula: &'a [u8],
        environment: &'a [u8],
        budget: u64,
        arena: &'a mut [u32],
        book: &'a mut [u32],
        output: &'b mut [u8],
    ) -> Machine<'a, 'b>
        ensures state { (machine result).st ≡ start_of budget }
        ensures formula { result.formula.now ≡ formula.now }
        ensures environment { result.environment.now ≡ environment.now }
        ensures words { result.arena.now ≡ arena.old }
        ensures arena { result.arena.ghost_name ≡ arena.entry.ghost_name }
        ensures cells { result.book.now ≡ book.old }
        ensures book { result.book.ghost_name ≡ book.entry.ghost_name }
        ensures bytes { result.output.now ≡ output.old }
        ensures output { result.output.ghost_name ≡ output.entry.ghost_name }
    {
        Machine {
            formula,
            environment,
            arena,
            book,
            output,
            at: Place(0),
            from: Place(0),
            last: NodeRef(0),
            nodes: 0,
            budget,
            slots: 0,
            met: 0,
            bound: 0,
            bytes: 0,
            over: false,
        }
    }
}

impl Machine<'_, '_> {
    // ---- steps on the state alone

    // The walk stands at the offset after a type's head, if a place can number it.
    #[tactic(auto, using(crate::specs::Seen::still, crate::specs::Still::tests), unfolding(crate::specs::Machine::passed_of, crate::specs::Machine::placed_of, crate::specs::Machine::stopped_of, forms::specs::Forms::then))]
    fn passed(&mut self, e: usize) -> Result<(), Stop>
        ensures value { walked result self.new ≡ on_st (passed_of e) (machine self.old) }
        ensures kept { Kept self.old self.new }
    {
        let at = u32::try_from(e).map_err(|_| Stop::Broken)?;
        self.placed(Place(at));
        Ok(())
    }

    // The walk stands at a place.
    #[tactic(auto, using(crate::specs::Seen::still, crate::specs::Still::tests), unfolding(crate::specs::Machine::placed_of, forms::specs::Forms::then))]
    pub fn placed(&mut self, at: Place)
        ensures value { machine self.new ≡ on_st (placed_of at.0) (machine self.old) }
        ensures kept { Kept self.old self.new }
    {
        self.at = at;
    }

    // The last reference is r.
    #[tactic(auto, using(crate::specs::Seen::still, crate::specs::Still::tests), unfolding(crate::specs::Machine::gave_of, forms::specs::Forms::then))]
    pub fn gave(&mut self, r: NodeRef)
        ensures value { machine self.new ≡ on_st (gave_of r.0) (machine self.old) }
        ensures kept { Kept self.old self.new }
    {
        self.last = r;
    }

    // n declarations are around.
    #[tactic(auto, using(crate::specs::Seen::still, crate::specs::Still::tests), unfolding(crate::specs::Machine::bound_of, forms::specs::Forms::then))]
    pub fn bounded(&mut self, n: u32)
        ensures value { machine self.new ≡ on_st (bound_of n) (machine self.old) }
        ensures kept { Kept self.old self.new }
    {
        self.bound = n;
    }

    // A node stands at r, the last one of the arena.
    #[tactic(auto, using(crate::specs::Seen::still, crate::specs::Still::tests), unfolding(crate::specs::Machine::grown_of, crate::specs::Machine::stopped_of, forms::specs::Forms::then))]
    fn grown(&mut self, r: NodeRef) -> Result<(), Stop>
        ensures value { walked result self.new ≡ on_st (grown_of r.0) (machine self.old) }
        ensures kept { Kept self.old self.new }
    {
        let n = r.0;
        if n >= 65536 {
            return Err(Stop::Broken);
        }
        self.nodes = n + 1;
        self.last = r;
        Ok(())
    }

    // One unit is paid.
    #[tactic(auto, using(crate::specs::Seen::still, crate::specs::Still::tests), unfolding(crate::specs::Machine::paid_of, crate::specs::Machine::left_of, crate::specs::Machine::stopped_of, forms::specs::Forms::then))]
    pub fn paid(&mut self) -> Result<(), Stop>
        ensures value { walked result self.new ≡ on_st paid_of (machine self.old) }
        ensures kept { Kept self.old self.new }
    {
        if self.budget == 0 {
            return Err(Stop::Spent);
        }
        self.budget -= 1;
        Ok(())
    }

    // An expression or declaration is entered: a unit is paid and a slot taken.
    #[tactic(auto, using(crate::specs::Seen::still, crate::specs::Still::tests), unfolding(crate::specs::Machine::enter_of, crate::specs::Machine::stopped_of, forms::specs::Forms::then))]
    pub fn enter(&mut self) -> Result<(), Stop>
        ensures value { walked result self.new ≡ on_st enter_of (machine self.old) }
        ensures kept { Kept self.old self.new }
    {
        self.paid()?;
        if self.slots >= types::MAX_SLOTS {
            return Err(Stop::Broken);
        }
        self.slots += 1;
        Ok(())
    }

    // ---- the book

    // A word of the book. 0 outside.
    pub fn read(&self, area: Area, j: u32, k: u32) -> u32
        ensures { result ≡ word_of (cell area.start area.stride j k) (machine self.now) }
    {
        self.book.get(cell(area, j, k)).copied().unwrap_or(0)
    }

    // Writes a word of the book; nothing outside.
    #[tactic(auto, using(crate::specs::Seen::still, crate::specs::Still::tests, crate::proofs::Laws::set_outside), unfolding(crate::specs::Machine::put_of, forms::specs::Forms::then))]
    pub fn put(&mut self, area: Area, j: u32, k: u32, value: u32)
        ensures value { machine self.new ≡ put_of (cell area.start area.stride j k) value (machine self.old) }
        ensures kept { Kept self.old self.new }
    {
        let i = cell(area, j, k);
        if i < self.book.len() {
            self.book[i] = value;
        }
    }

    // ---- the output

    // A byte is written into the output.
    #[tactic(auto, using(crate::specs::Seen::still, crate::specs::Still::tests), unfolding(crate::specs::Machine::emit_of, crate::specs::Machine::bytes_of, crate::specs::Machine::over_of, forms::specs::Forms::then))]
    pub fn emit(&mut self, byte: u8)
        ensures value { machine self.new ≡ emit_of byte (machine self.old) }
        ensures kept { Kept self.old self.new }
    {
        if self.over {
            return;
        }
        let n = self.bytes;
        if n < self.output.len() {
            self.output[n] = byte;
            self.bytes = n + 1;
        } else {
            self.over = true;
        }
    }

    // Two bytes, the lower first.
    #[tactic(auto, using(crate::specs::Seen::still, crate::specs::Still::tests), unfolding(crate::specs::Machine::two_of, forms::specs::Forms::then))]
    pub fn emit_two(&mut self, v: u32)
        ensures value { machine self.new ≡ two_of v (machine self.old) }
        ensures kept { Kept self.old self.new }
    {
        let [low, high, ..] = v.to_le_bytes();
        self.emit(low);
        self.emit(high);
    }

    // Four bytes, the lowest first.
    #[tactic(auto, using(crate::specs::Seen::still, crate::specs::Still::tests, crate::proofs::Laws::four_bytes), unfolding(forms::specs::Forms::then))]
    pub fn emit_four(&mut self, v: u32)
        ensures value { machine self.new ≡ four_of v (machine self.old) }
        ensures kept { Kept self.old self.new }
    {
        let [first, second, third, fourth] = v.to_le_bytes();
        self.emit(first);
        self.emit(second);
        self.emit(third);
        self.emit(fourth);
    }

    // A problem is listed: its entry goes straight into the output.
    #[tactic(auto, using(crate::specs::Seen::still, crate::specs::Still::tests), unfolding(crate::specs::Machine::list_of, forms::specs::Forms::then))]
    pub fn list(&mut self, problem: Problem, place: Place, name: Option<Name>)
        ensures value { machine self.new ≡ list_of (problem_number problem) place.0 (name_number name) (machine self.old) }
        ensures kept { Kept self.old self.new }
    {
        self.emit(0x60);
        self.emit(number(problem));
        self.emit_four(place.0);
        self.emit_two(name_word(name));
    }

    // ---- the arena

    // Whether no unknown remains below a reference. With no answer the budget stays as it was.
    pub fn solved(&self, t: NodeRef, left: &mut u64) -> Result<bool, Halt>
        ensures answer { told result left.new ≡ solved (machine self.now).arena self.now.nodes t.0 left.old }
        ensures spared { spared result left.old left.new }
    {
        unifier::solved(self.arena, self.nodes, t, left)
    }

    // A node is made.
    pub fn make(&mut self, node: Node) -> Result<(), Stop>
        ensures value { walked result self.new ≡ made_of node (machine self.old) }
        ensures kept { Kept self.old self.new }
    {
        let r = makers::make(self.arena, self.nodes, node)?;
        self.grown(r)
    }

    // Two references are made equal; where they cannot be, a problem is listed at the place.
    pub fn expect(&mut self, a: NodeRef, b: NodeRef, place: Place) -> Result<(), Stop>
        ensures value { walked result self.new ≡ expect_of a.0 b.0 place.0 (machine self.old) }
        ensures kept { Kept self.old self.new }
    {
        // a copy: at a stop the budget stays as it was
        let mut left = self.budget;
        let verdict = unifier::unify(self.arena, self.nodes, a, b, &mut left)?;
        self.budget = left;
        match verdict {
            Verdict::Done => {}
            Verdict::Mismatch => self.list(Problem::Mismatch, place, None),
            Verdict::Circular => self.list(Problem::Circular, place, None),
        }
        Ok(())
    }

    // ---- slots, names, declarations

    // The slot of what was walked last is filled, with its place.
    #[tactic(auto, using(crate::specs::Seen::still, crate::specs::Still::tests), unfolding(crate::specs::Machine::leave_of, crate::specs::Machine::arrived_of, forms::specs::Forms::then, crate::specs::Machine::put_of))]
    pub fn leave(&mut self, slot: u32, place: Place)
        ensures value { machine self.new ≡ leave_of slot place.0 (machine self.old) }
        ensures kept { Kept self.old self.new }
    {
        self.put(SLOTS, slot, 0, self.last.0);
        self.put(SLOTS, slot, 1, place.0);
        self.from = place;
    }

    // A name's reference is the last one from here on.
    #[tactic(auto, using(crate::specs::Seen::still, crate::specs::Still::tests), unfolding(crate::specs::Machine::remember_of, forms::specs::Forms::then, crate::specs::Machine::put_of))]
    fn remember(&mut self, name: Name)
        ensures value { machine self.new ≡ remember_of name.0 (machine self.old) }
        ensures kept { Kept self.old self.new }
    {
        self.put(REFS, name.0, 0, 1);
        self.put(REFS, name.0, 1, self.last.0);
    }

    // A name that the environment lacks is met: it stands in the row, with its unknown and its place.
    #[tactic(auto, using(crate::specs::Seen::still, crate::specs::Still::tests), unfolding(crate::specs::Machine::enrol_of, crate::specs::Machine::met_of, crate::specs::Machine::stopped_of, forms::specs::Forms::then, crate::specs::Machine::put_of))]
    fn enrol(&mut self, name: Name, place: Place) -> Result<(), Stop>
        ensures value { walked result self.new ≡ enrol_of name.0 place.0 (machine self.old) }
        ensures kept { Kept self.old self.new }
    {
        let n = self.met;
        if n >= types::MAX_NAMES {
            return Err(Stop::Broken);
        }
        self.put(ROW, n, 0, name.0);
        self.put(ROW, n, 1, self.last.0);
        self.put(ROW, n, 2, place.0);
        self.met = n + 1;
        Ok(())
    }

    // The declaration made last is around what follows.
    #[tactic(auto, using(crate::specs::Seen::still, crate::specs::Still::tests), unfolding(crate::specs::Machine::push_bound_of, crate::specs::Machine::bound_of, crate::specs::Machine::stopped_of, forms::specs::Forms::then, crate::specs::Machine::put_of))]
    fn push_bound(&mut self) -> Result<(), Stop>
        ensures value { walked result self.new ≡ push_bound_of (machine self.old) }
        ensures kept { Kept self.old self.new }
    {
        let n = self.bound;
        if n >= types::MAX_OPENED {
            return Err(Stop::Broken);
        }
        self.put(OPENED, n, 0, self.last.0);
        self.bound = n + 1;
        Ok(())
    }

    // ---- types in the stream
    // Three descents of one shape, `skip`, `lift` and `note_spelled_givens`: each has its own definition (`skip_of`, `lift_of`, `notes_of`), which says
    // where a stop leaves the walk, so that `types::type_end` does not do for the first; and what `lift` does after the parts the others have not.

    // Past the type record where the walk stands.
    #[tactic(auto, using(crate::specs::Seen::still, crate::specs::Still::tests, crate::proofs::Laws::levels), unfolding(crate::specs::Types::skip_by, crate::specs::Machine::stopped_of, forms::specs::Forms::then, types::specs::Code::head_is))]
    pub fn skip(&mut self, left: u32) -> Result<(), Stop>
        ensures value { walked result self.new ≡ on_st (skip_of left self.old.formula.now) (machine self.old) }
        ensures kept { Kept self.old self.new }
    {
        if left == 0 {
            return Err(Stop::Broken);
        }
        let at = self.at.0 as usize;
        match types::head_at(self.formula, types::MAX_NAMES, at).ok_or(Stop::Broken)? {
            Head::Atomic(_, e) => self.passed(e),
            Head::Power(e) => {
                self.passed(e)?;
                self.skip(left - 1)
            }
            Head::Product(e) => {
                self.passed(e)?;
                self.skip(left - 1)?;
                self.skip(left - 1)
            }
        }
    }

    // The type record where the walk stands, as nodes: parts first, left first. Crate `lift` does not do: a stop leaves the walk at the place reached,
    // with the nodes made, and its answer tells neither.
    #[tactic(auto, using(crate::specs::Seen::still, crate::specs::Still::tests, crate::proofs::Laws::levels), unfolding(crate::specs::Types::lift_by, crate::specs::Machine::stopped_of, forms::specs::Forms::then, types::specs::Code::head_is))]
    fn lift(&mut self, source: &[u8], left: u32) -> Result<(), Stop>
        ensures value { walked result self.new ≡ lift_of left source.now (machine self.old) }
        ensures kept { Kept self.old self.new }
    {
        if left == 0 {
            return Err(Stop::Broken);
        }
        let at = self.at.0 as usize;
        match types::head_at(source, types::MAX_NAMES, at).ok_or(Stop::Broken)? {
            Head::Atomic(a, e) => {
                self.passed(e)?;
                self.make(Node::Leaf(a))
            }
            Head::Power(e) => {
                self.passed(e)?;
                self.lift(source, left - 1)?;
                self.make(Node::Power(self.last))
            }
            Head::Product(e) => {
                self.passed(e)?;
                self.lift(source, left - 1)?;
                let x = self.last;
                self.lift(source, left - 1)?;
                self.make(Node::Product(x, self.last))
            }
        }
    }

    // A free name: its environment type, lifted once; otherwise one unknown for all its occurrences.
    #[tactic(auto, using(crate::specs::Seen::still, crate::specs::Still::tests), unfolding(crate::specs::Types::free_of, forms::specs::Forms::then))]
    pub fn free_identifier(&mut self, name: Name, place: Place) -> Result<(), Stop>
        ensures value { walked result self.new ≡ free_of self.old.environment.now name.0 place.0 (machine self.old) }
        ensures kept { Kept self.old self.new }
    {
        if self.read(REFS, name.0, 0) != 0 {
            self.gave(NodeRef(self.read(REFS, name.0, 1)));
            return Ok(());
        }
        let entry = self.read(ENTRIES, name.0, 0);
        if entry == 0 {
            self.make(Node::Unknown)?;
            self.remember(name);
            return self.enrol(name, place);
        }
        let back = self.at;
        self.placed(Place(entry - 1));
        self.lift(self.environment, types::LEVELS)?;
        self.remember(name);
        self.placed(back);
        Ok(())
    }

    // A bound identifier, counted from the innermost declaration. A dangling one lists a problem and takes an unknown.
    #[tactic(auto, using(crate::specs::Seen::still, crate::specs::Still::tests), unfolding(crate::specs::Types::bound_identifier_of, forms::specs::Forms::then))]
    pub fn bound_identifier(&mut self, index: u32, place: Place) -> Result<(), Stop>
        ensures value { walked result self.new ≡ bound_identifier_of index place.0 (machine self.old) }
        ensures kept { Kept self.old self.new }
    {
        let n = self.bound;
        if index < n {
            self.gave(NodeRef(self.read(OPENED, n - 1 - index, 0)));
            return Ok(());
        }
        self.list(Problem::DanglingIndex, place, None);
        self.make(Node::Unknown)
    }

    // A given name that a spelled type holds: where the environment lacks it, it must have the type of its own power set.
    #[tactic(auto, using(crate::specs::Seen::still, crate::specs::Still::tests), unfolding(crate::specs::Types::note_of, forms::specs::Forms::then, crate::specs::Types::atom_of, types::specs::Code::atom_is))]
    fn note(&mut self, name: Name, place: Place) -> Result<(), Stop>
        ensures value { walked result self.new ≡ note_of self.old.environment.now name.0 place.0 (machine self.old) }
        ensures kept { Kept self.old self.new }
    {
        let held = self.read(ENTRIES, name.0, 0);
        if held != 0 {
            return Ok(());
        }
        self.free_identifier(name, place)?;
        let t = self.last;
        self.make(Node::Leaf(Atom::Given(name)))?;
        self.make(Node::Power(self.last))?;
        self.expect(t, self.last, place)
    }

    // The name of a given set is noted at a place; the other types without parts have none.
    #[tactic(auto, using(crate::specs::Seen::still, crate::specs::Still::tests), unfolding(crate::specs::Types::noted_of, types::specs::Code::atom_is, forms::specs::Forms::then))]
    fn noted(&mut self, a: Atom, place: Place) -> Result<(), Stop>
        ensures value { walked result self.new ≡ noted_of self.old.environment.now place.0 (atom_is a) (machine self.old) }
        ensures kept { Kept self.old self.new }
    {
        match a {
            Atom::Bool | Atom::Integer => Ok(()),
            Atom::Given(x) => self.note(x, place),
        }
    }

    // The given names of the type record where the walk stands are noted, left to right, at a place.
    #[tactic(auto, using(crate::specs::Seen::still, crate::specs::Still::tests, crate::proofs::Laws::levels), unfolding(crate::specs::Types::notes_by, crate::specs::Machine::stopped_of, forms::specs::Forms::then, types::specs::Code::head_is))]
    fn note_spelled_givens(&mut self, left: u32, place: Place) -> Result<(), Stop>
        ensures value { walked result self.new ≡ notes_of left self.old.formula.now self.old.environment.now place.0 (machine self.old) }
        ensures kept { Kept self.old self.new }
    {
        if left == 0 {
            return Err(Stop::Broken);
        }
        let at = self.at.0 as usize;
        match types::head_at(self.formula, types::MAX_NAMES, at).ok_or(Stop::Broken)? {
            Head::Atomic(a, e) => {
                self.passed(e)?;
                self.noted(a, place)
            }
            Head::Power(e) => {
                self.passed(e)?;
                self.note_spelled_givens(left - 1, place)
            }
            Head::Product(e) => {
                self.passed(e)?;
                self.note_spelled_givens(left - 1, place)?;
                self.note_spelled_givens(left - 1, place)
            }
        }
    }

    // The type record where the walk stands is compared with a reference.
    #[tactic(auto, using(crate::specs::Seen::still, crate::specs::Still::tests), unfolding(crate::specs::Types::meets_of, forms::specs::Forms::then))]
    pub fn meets(&mut self, x: NodeRef, place: Place) -> Result<(), Stop>
        ensures value { walked result self.new ≡ meets_of self.old.formula.now x.0 place.0 (machine self.old) }
        ensures kept { Kept self.old self.new }
    {
        self.lift(self.formula, types::LEVELS)?;
        self.expect(x, self.last, place)
    }

    // The same for a spelled type, whose given names are noted first, at a place of their own.
    #[tactic(auto, using(crate::specs::Seen::still, crate::specs::Still::tests), unfolding(crate::specs::Types::spelled_of, forms::specs::Forms::then))]
    fn spelled(&mut self, x: NodeRef, noted: Place, place: Place) -> Result<(), Stop>
        ensures value { walked result self.new ≡ spelled_of self.old.formula.now self.old.environment.now x.0 noted.0 place.0 (machine self.old) }
        ensures kept { Kept self.old self.new }
    {
        let at = self.at;
        self.note_spelled_givens(types::LEVELS, noted)?;
        self.placed(at);
        self.meets(x, place)
    }

    // The type of an ascription against its expression; no type lists a problem.
    #[tactic(auto, using(crate::specs::Seen::still, crate::specs::Still::tests), unfolding(crate::specs::Types::ascription_of, crate::specs::Types::ascription_by, crate::specs::Machine::stopped_of, forms::specs::Forms::then))]
    pub fn ascription(&mut self, x: NodeRef, place: Place) -> Result<(), Stop>
        ensures value { walked result self.new ≡ ascription_of self.old.formula.now self.old.environment.now x.0 place.0 (machine self.old) }
        ensures kept { Kept self.old self.new }
    {
        let at = self.at;
        match heads::byte_at(self.formula, at).ok_or(Stop::Broken)? {
            (0x4F, e) => {
                self.list(Problem::Mismatch, at, None);
                self.placed(e);
                Ok(())
            }
            _ => self.spelled(x, at, place),
        }
    }

    // What a declaration's head says of its reference: nothing, a type, an annotation.
    #[tactic(auto, using(crate::specs::Seen::still, crate::specs::Still::tests), unfolding(crate::specs::Types::claim_of, crate::specs::Types::annotation_by, crate::specs::Machine::stopped_of, forms::specs::Forms::then))]
    fn claim(&mut self, h: DeclHead, x: NodeRef, place: Place) -> Result<(), Stop>
        ensures value { walked result self.new ≡ claim_of self.old.formula.now self.old.environment.now h x.0 place.0 (machine self.old) }
        ensures kept { Kept self.old self.new }
    {
        match h {
            DeclHead::Plain(_) => Ok(()),
            DeclHead::Typed(_) => self.meets(x, place),
            DeclHead::Annotated(_) => match heads::byte_at(self.formula, self.at).ok_or(
                Stop::Broken,
            )? {
                (0x4F, e) => {
                    self.placed(e);
                    Ok(())
                }
                _ => self.spelled(x, place, place),
            },
        }
    }

    // One declaration.
    #[tactic(auto, using(crate::specs::Seen::still, crate::specs::Still::tests), unfolding(crate::specs::Types::declaration_of, crate::specs::Types::declaration_by, crate::specs::Machine::stopped_of, forms::specs::Forms::then))]
    fn declaration(&mut self) -> Result<(), Stop>
        ensures value { walked result self.new ≡ declaration_of self.old.formula.now self.old.environment.now (machine self.old) }
        ensures kept { Kept self.old self.new }
    {
        let slot = self.slots;
        let place = self.at;
        let h = heads::decl_head(self.formula, place).ok_or(Stop::Broken)?;
        self.enter()?;
        self.placed(heads::decl_end(h));
        self.make(Node::Unknown)?;
        let x = self.last;
        self.leave(slot, place);
        self.push_bound()?;
        self.claim(h, x, place)
    }

    // n declarations. A loop: of a walk that the closure of `try_for_each` changes a proof knows nothing after it.
    #[tactic(auto, using(crate::specs::Seen::still, crate::proofs::Laws::turns), unfolding(forms::specs::Forms::then))]
    pub fn declare(&mut self, n: u8) -> Result<(), Stop>
        ensures value { walked result self.new ≡ declare_of self.old.formula.now self.old.environment.now n (machine self.old) }
        ensures kept { Kept self.old self.new }
    {
        for _ in 0..n {
            self.declaration()?;
        }
        Ok(())
    }

    // ---- scripts, played

    // What was walked last, as a part that a script is played with.
    pub fn part(&self) -> Part
        ensures { result ≡ record { node = self.now.last; place = self.now.from } }
    {
        Part {
            node: self.last,
            place: self.from,
        }
    }

    // One item: a node, or a comparison.
    #[tactic(auto, using(crate::specs::Seen::still, crate::specs::Still::tests), unfolding(crate::specs::Scripts::item_of, forms::specs::Forms::then, crate::specs::Types::atom_of, types::specs::Code::atom_is))]
    fn perform(&mut self, it: Item, p: Parts) -> Result<(), Stop>
        ensures value { walked result self.new ≡ item_of it p (machine self.old) }
        ensures kept { Kept self.old self.new }
    {
        match it {
            Item::Unknown => self.make(Node::Unknown),
            Item::Boolean => self.make(Node::Leaf(Atom::Bool)),
            Item::Integer => self.make(Node::Leaf(Atom::Integer)),
            Item::Power(x) => self.make(Node::Power(chosen(x, p))),
            Item::Product(x, y) => self.make(Node::Product(chosen(x, p), chosen(y, p))),
            Item::Equal(x, y, seat) => self.expect(chosen(x, p), chosen(y, p), place_of(seat, p)),
        }
    }

    // A script is played with its parts, whatever node its own begin at.
    #[tactic(auto, using(crate::specs::Seen::still, crate::proofs::Laws::turns), unfolding(crate::specs::Scripts::play_of, forms::specs::Forms::then))]
    pub fn play_parts(&mut self, script: Script, p: Parts) -> Result<(), Stop>
        ensures value { walked result self.new ≡ play_of script p (machine self.old) }
        ensures kept { Kept self.old self.new }
    {
        for item in script.items() {
            self.perform(*item, p)?;
        }
        self.gave(chosen(script.gives(), p));
        Ok(())
    }

    // A script is played with its parts, at a record's place. Its own nodes are those that the walk makes next.
    #[tactic(auto, using(crate::specs::Seen::still), unfolding(crate::specs::Scripts::parts_of, forms::specs::Forms::then))]
    pub fn play(
        &mut self,
        script: Script,
        left: Part,
        right: Part,
        place: Place,
    ) -> Result<(), Stop>
        ensures value { walked result self.new ≡ play_of script (parts_of left.node.0 left.place.0 right.node.0 right.place.0 place.0 (machine self.old).st) (machine self.old) }
        ensures kept { Kept self.old self.new }
    {
        let base = self.nodes;
        self.play_parts(
            script,
            Parts {
                left,
                right,
                place,
                base,
            },
        )
    }

    // The script of a number is played, for whoever has numbers; past the last nothing is played, and reference 0 is handed on.
    #[tactic(auto, using(crate::specs::Seen::still), unfolding(crate::specs::Scripts::play_numbered, forms::specs::Forms::then))]
    pub fn play_number(&mut self, n: u8, p: Parts) -> Result<(), Stop>
        ensures value { walked result self.new ≡ play_numbered (numbered n) p (machine self.old) }
        ensures kept { Kept self.old self.new }
    {
        match Script::numbered(n) {
            Some(script) => self.play_parts(script, p),
            None => {
                self.gave(NodeRef(0));
                Ok(())
            }
        }
    }
}

// A part of a record: the reference and the place of an expression.
#[derive(Clone, Copy)]
pub struct Part {
    pub node: NodeRef,
    pub place: Place,
}

// What a script is played with: the parts, the record's place, and the count of nodes as it begins.
#[derive(Clone, Copy)]
pub struct Parts {
    pub left: Part,
    pub right: Part,
    pub place: Place,
    pub base: u32,
}

// An operand: a part, or the script's own node.
#[tactic(auto, using(forms::specs::Forms::yes_lt, forms::specs::Forms::no_lt), unfolding(crate::specs::Scripts::chosen_of))]
fn chosen(operand: Operand, p: Parts) -> NodeRef
    ensures { result ≡ chosen_of operand p }
{
    match operand {
        Operand::Left => p.left.node,
        Operand::Right => p.right.node,
        Operand::Own(j) => {
            let base = p.base;
            if base < 65536 {
                NodeRef(base + u32::from(j))
            } else {
                NodeRef(0)
            }
        }
    }
}

#[tactic(auto, unfolding(crate::specs::Scripts::place_of))]
fn place_of(seat: Seat, p: Parts) -> Place
    ensures { result ≡ place_of seat p }
{
    match seat {
        Seat::Whole => p.place,
        Seat::Near => p.left.place,
        Seat::Far => p.right.place,
    }
}
