// The finish of a walk, and the answer's bytes: names, then slots, are tested for unknowns; their types are written from the arena straight into
// the output.
#![tactic(auto)]

ghost use Rattle.std.specs.Prelude.{◌≡◌, ℕ};
ghost use Rattle.machine.specs.Seen.{machine, walked, problem_number, name_number, Kept};
ghost use Rattle.machine.specs.Machine.{Mach};
ghost use Rattle.machine.specs.Still.{Halted};
ghost use Rattle.finisher.specs.Finisher.{each_of, settle_of, name_of, slot_of, test_names_of, test_slots_of, clean_of, finish_of, spell_of, entry_of, type_of, write_names_of, write_slots_of, write_answer_of};

use machine::{Machine, Problem, Stop};
use types::{Name, NodeRef, Place};
use write::WriteError;

// ---- unknowns

// A reference with an unknown is a problem at its place.
fn settle(
    walk: &mut Machine,
    t: NodeRef,
    problem: Problem,
    place: Place,
    name: Option<Name>,
) -> Result<(), Stop>
    ensures value { walked result walk.new ≡ settle_of t.0 (problem_number problem) place.0 (name_number name) (machine walk.old) }
    ensures kept { Kept walk.old walk.new }
{
    // a copy: at a stop the budget stays as it was
    let mut left = walk.budget;
    let solved = walk.solved(t, &mut left)?;
    walk.budget = left;
    if !solved {
        walk.list(problem, place, name);
    }
    Ok(())
}

// Entry j of the names met.
#[tactic(auto, using(machine::specs::Seen::still, machine::specs::Still::tests, crate::specs::Still::still), unfolding(crate::specs::Finisher::name_of, forms::specs::Forms::then))]
fn name(walk: &mut Machine, j: u32) -> Result<(), Stop>
    ensures value { walked result walk.new ≡ name_of j (machine walk.old) }
    ensures kept { Kept walk.old walk.new }
{
    let x = walk.read(machine::ROW, j, 0);
    let t = walk.read(machine::ROW, j, 1);
    let p = walk.read(machine::ROW, j, 2);
    settle(
        walk,
        NodeRef(t),
        Problem::UntypedName,
        Place(p),
        Some(Name(x)),
    )
}

// Slot j.
#[tactic(auto, using(machine::specs::Seen::still, machine::specs::Still::tests, crate::specs::Still::still), unfolding(crate::specs::Finisher::slot_of, forms::specs::Forms::then))]
fn slot(walk: &mut Machine, j: u32) -> Result<(), Stop>
    ensures value { walked result walk.new ≡ slot_of j (machine walk.old) }
    ensures kept { Kept walk.old walk.new }
{
    let t = walk.read(machine::SLOTS, j, 0);
    let p = walk.read(machine::SLOTS, j, 1);
    settle(walk, NodeRef(t), Problem::UntypedExpression, Place(p), None)
}

// The step at each of n numbers, in order: whatever definition each turn follows, if a stopped machine passes through it, the row follows too.
#[tactic(auto, using(machine::specs::Seen::still, machine::specs::Still::tests, crate::specs::Still::still, crate::proofs::Laws::turns), unfolding(forms::specs::Forms::then))]
fn each<F: Fn(&mut Machine, u32) -> Result<(), Stop>>(
    walk: &mut Machine,
    n: u32,
    step: F,
) -> Result<(), Stop>
    requires { F.IsAlwaysCallable step }
    ensures { (f : ℕ → Mach → Mach) → ((j : ℕ) (m : Mach) → Halted m → f j m ≡ m) → ((w : _) (w' : _) (j : ℕ) (r : _) → F.post step w j r w' → (walked r w'.now ≡ f j (machine w.now)) × Kept w.now w'.now) → (walked result walk.new ≡ each_of f n 0 (machine walk.old)) × Kept walk.old walk.new }
{
    for j in 0..n {
        step(walk, j)?;
    }
    Ok(())
}

// The names met, in order.
#[tactic(auto, using(machine::specs::Seen::still, machine::specs::Still::tests, crate::specs::Still::still, crate::proofs::Laws::turns), unfolding(crate::specs::Finisher::test_names_of, forms::specs::Forms::then))]
fn test_names(walk: &mut Machine) -> Result<(), Stop>
    ensures value { walked result walk.new ≡ test_names_of (machine walk.old) }
    ensures kept { Kept walk.old walk.new }
{
    each(walk, walk.met, name)
}

// The slots, in order.
#[tactic(auto, using(machine::specs::Seen::still, machine::specs::Still::tests, crate::specs::Still::still, crate::proofs::Laws::turns), unfolding(crate::specs::Finisher::test_slots_of, forms::specs::Forms::then))]
fn test_slots(walk: &mut Machine) -> Result<(), Stop>
    ensures value { walked result walk.new ≡ test_slots_of (machine walk.old) }
    ensures kept { Kept walk.old walk.new }
{
    each(walk, walk.slots, slot)
}

// Whether nothing is listed.
#[tactic(auto, using(machine::specs::Seen::still, machine::specs::Still::tests, crate::specs::Still::still), unfolding(crate::specs::Finisher::clean_of, forms::specs::Forms::then))]
pub fn clean(walk: &Machine) -> bool
    ensures { result ≡ clean_of (machine walk.now).st }
{
    !walk.over && walk.bytes == 0
}

// Names are tested; then slots, where nothing is listed.
#[tactic(auto, using(machine::specs::Seen::still, machine::specs::Still::tests, crate::specs::Still::still), unfolding(crate::specs::Finisher::finish_of, forms::specs::Forms::then))]
pub fn finish(walk: &mut Machine) -> Result<(), Stop>
    ensures value { walked result walk.new ≡ finish_of (machine walk.old) }
    ensures kept { Kept walk.old walk.new }
{
    test_names(walk)?;
    if clean(walk) {
        return test_slots(walk);
    }
    Ok(())
}

// ---- types

// The type at a reference is written after the bytes so far, with a budget that every test was within.
fn spell(walk: &mut Machine, t: NodeRef) -> Result<(), Stop>
    ensures value { walked result walk.new ≡ spell_of t.0 (machine walk.old) }
    ensures kept { Kept walk.old walk.new }
{
    if walk.over {
        return Ok(());
    }
    let mut left = u64::MAX;
    let (count, at) = (walk.nodes, walk.bytes);
    // the arena is taken while the output is lent: of a struct behind a reference one field is lent at a time
    let arena = std::mem::take(&mut walk.arena);
    let laid = write::put(arena, count, walk.output, at, t, &mut left);
    walk.arena = arena;
    match laid {
        Ok(end) => walk.bytes = end,
        Err(WriteError::Full) => walk.over = true,
        Err(WriteError::Spent | WriteError::Broken) => return Err(Stop::Broken),
    }
    Ok(())
}

// 50: name j and its type.
#[tactic(auto, using(machine::specs::Seen::still, machine::specs::Still::tests, crate::specs::Still::still), unfolding(crate::specs::Finisher::entry_of, forms::specs::Forms::then))]
fn entry(walk: &mut Machine, j: u32) -> Result<(), Stop>
    ensures value { walked result walk.new ≡ entry_of j (machine walk.old) }
    ensures kept { Kept walk.old walk.new }
{
    let x = walk.read(machine::ROW, j, 0);
    let t = walk.read(machine::ROW, j, 1);
    walk.emit(0x50);
    walk.emit_two(x);
    spell(walk, NodeRef(t))
}

// 51: the place of slot j and its type.
#[tactic(auto, using(machine::specs::Seen::still, machine::specs::Still::tests, crate::specs::Still::still), unfolding(crate::specs::Finisher::type_of, forms::specs::Forms::then))]
fn slot_type(walk: &mut Machine, j: u32) -> Result<(), Stop>
    ensures value { walked result walk.new ≡ type_of j (machine walk.old) }
    ensures kept { Kept walk.old walk.new }
{
    let t = walk.read(machine::SLOTS, j, 0);
    let p = walk.read(machine::SLOTS, j, 1);
    walk.emit(0x51);
    walk.emit_four(p);
    spell(walk, NodeRef(t))
}

#[tactic(auto, using(machine::specs::Seen::still, machine::specs::Still::tests, crate::specs::Still::still, crate::proofs::Laws::turns), unfolding(crate::specs::Finisher::write_names_of, forms::specs::Forms::then))]
fn write_names(walk: &mut Machine) -> Result<(), Stop>
    ensures value { walked result walk.new ≡ write_names_of (machine walk.old) }
    ensures kept { Kept walk.old walk.new }
{
    each(walk, walk.met, entry)
}

#[tactic(auto, using(machine::specs::Seen::still, machine::specs::Still::tests, crate::specs::Still::still, crate::proofs::Laws::turns), unfolding(crate::specs::Finisher::write_slots_of, forms::specs::Forms::then))]
fn write_slots(walk: &mut Machine) -> Result<(), Stop>
    ensures value { walked result walk.new ≡ write_slots_of (machine walk.old) }
    ensures kept { Kept walk.old walk.new }
{
    each(walk, walk.slots, slot_type)
}

// The types of names and slots are written, after the bytes so far.
#[tactic(auto, using(machine::specs::Seen::still, machine::specs::Still::tests, crate::specs::Still::still), unfolding(crate::specs::Finisher::write_answer_of, forms::specs::Forms::then))]
pub fn write_answer(walk: &mut Machine) -> Result<(), Stop>
    ensures value { walked result walk.new ≡ write_answer_of (machine walk.old) }
    ensures kept { Kept walk.old walk.new }
{
    write_names(walk)?;
    write_slots(walk)
}
