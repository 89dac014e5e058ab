// The stages of inference that its entry puts together around the walk: the test of sizes, the start, the answer, and what is left behind.
#![tactic(auto)]

ghost use Rattle.std.specs.Prelude.{◌≡◌, List, ℕ, ◌+◌, ◌*◌, ◌-◌, ◌<◌, ◌≤◌, length};
ghost use Rattle.inference.specs.Infer.{sized};
ghost use Rattle.machine.specs.Seen.{machine, Kept};
ghost use Rattle.memory.specs.Memory.{cleared};
ghost use Rattle.runner.specs.Answers.{told, called};
ghost use Rattle.runner.specs.Begin.{entered_of};
ghost use Rattle.runner.specs.Calls.{refused_call};
ghost use Rattle.runner.specs.Run.{verdict_of, judged, judge_of, refused_by, fault_of};

use formula::FormError;
use machine::{Machine, Stop};
use types::{Fault, Place};

// Whether a formula's types were found.
#[derive(Clone, Copy, PartialEq, Eq)]
pub enum Verdict {
    // 0
    Typed,
    // 1
    Problems,
}

// What inference comes to: its verdict, the bytes written, the steps taken.
#[derive(Clone, Copy)]
pub struct Outcome {
    pub verdict: Verdict,
    pub length: usize,
    pub steps: u64,
}

// Why there is no outcome.
#[derive(Clone, Copy)]
pub enum Refusal {
    // 2
    Oversized,
    // 3
    BadEnvironment(Place),
    // 4
    BadFormula(Place),
    // 5
    Beyond(Place),
    // 6
    Full,
    // 7
    Spent,
    // 8
    NoRoom,
}

// Where a fault of form stands.
#[derive(Clone, Copy, PartialEq, Eq)]
pub enum Input {
    Environment,
    Formula,
}

// A walk that stops has no outcome: 6, 7, or 2 for what cannot happen once the form is tested.
impl From<Stop> for Refusal {
    ghost from_gives = { λ stop refusal. refusal ≡ refused_by stop };

    fn from(stop: Stop) -> Refusal {
        match stop {
            Stop::Full => Refusal::Full,
            Stop::Spent => Refusal::Spent,
            Stop::Broken => Refusal::Oversized,
        }
    }
}

// What inference answers.
pub type Answer = Result<Outcome, Refusal>;

// ---- number 2

#[tactic(auto, unfolding(inference::specs::Infer::sized))]
pub fn fits(formula: usize, environment: usize, names: u32, capacity: u32, work: usize) -> bool
    ensures { result ≡ sized formula environment names capacity work }
{
    formula <= types::MAX_BYTES
        && environment <= types::MAX_BYTES
        && names <= types::MAX_NAMES
        && 1 <= capacity
        && capacity <= types::MAX_CAPACITY
        && 3 * capacity as usize + types::BOOK <= work
}

// ---- the walk and the finish

// The environment's types, by name, into the book. A loop by name: over `(0..).zip(types)` it did not follow that a turn puts its name's type.
#[tactic(auto, using(crate::proofs::Laws::turns))]
pub fn enter_types(walk: &mut Machine, types: &[u32; 256])
    ensures value { machine walk.new ≡ entered_of types.now (machine walk.old) }
    ensures kept { Kept walk.old walk.new }
{
    for x in 0..types::MAX_NAMES {
        walk.put(machine::ENTRIES, x, 0, types[x as usize]);
    }
}

// ---- the answer

// The answer of a walk that found no room, or whose bytes stand in the output.
#[tactic(auto, using(machine::specs::Still::tests), unfolding(crate::specs::Run::verdict_of))]
fn conclude(verdict: Verdict, budget: u64, walk: &Machine) -> Answer
    ensures { result ≡ verdict_of verdict budget (machine walk.now).st }
{
    if walk.over {
        return Err(Refusal::NoRoom);
    }
    Ok(Outcome {
        verdict,
        length: walk.bytes,
        steps: budget.saturating_sub(walk.budget),
    })
}

// After the tests: problems or no room as they stand; else the typing's entries are written.
#[tactic(auto, using(machine::specs::Still::tests, crate::specs::Stops::verdict_stops, crate::proofs::Laws::judge_clean, crate::proofs::Words::words_stay), unfolding(forms::specs::Forms::then))]
pub fn judge(walk: &mut Machine, budget: u64) -> Answer
    ensures value { judged result walk.new.output.now ≡ judge_of budget (machine walk.old) }
    ensures words { (walk.new.arena.now ≡ walk.old.arena.now) × (walk.new.book.now ≡ walk.old.book.now) }
    ensures kept { Kept walk.old walk.new }
{
    if !finisher::clean(walk) {
        return conclude(Verdict::Problems, budget, walk);
    }
    finisher::write_answer(walk)?;
    conclude(Verdict::Typed, budget, walk)
}

// ---- what is left behind

// The bytes of an answer.
#[tactic(auto, unfolding(crate::specs::Answers::told))]
fn length_of(answer: Answer) -> usize
    ensures { result ≡ (told answer).size }
{
    match answer {
        Ok(outcome) => outcome.length,
        Err(_) => 0,
    }
}

// Zeros after the answer's bytes, and in all of the work slice.
pub fn close(answer: Answer, output: &mut [u8], work: &mut [u32]) -> Answer
    ensures { called result output.new work.new ≡ called answer (cleared (told answer).size output.old) (cleared 0 work.old) }
{
    memory::clear_bytes(output, length_of(answer));
    memory::clear_words(work, 0);
    answer
}

// A fault of form, as a refusal.
#[tactic(auto, unfolding(crate::specs::Run::fault_of))]
pub fn blame(input: Input, fault: Fault<Place>) -> Refusal
    ensures { result ≡ fault_of input fault }
{
    match fault {
        Fault::Malformed(p) => match input {
            Input::Environment => Refusal::BadEnvironment(p),
            Input::Formula => Refusal::BadFormula(p),
        },
        Fault::Beyond(p) => Refusal::Beyond(p),
    }
}

// The answer where a form is refused: one too long leaves output and work as they were.
#[tactic(auto, unfolding(crate::specs::Calls::refused_call, crate::specs::Calls::closed))]
pub fn refuse(input: Input, error: FormError, output: &mut [u8], work: &mut [u32]) -> Answer
    ensures { called result output.new work.new ≡ refused_call input error output.old work.old }
{
    match error {
        FormError::TooLong => Err(Refusal::Oversized),
        FormError::At(fault) => close(Err(blame(input, fault)), output, work),
    }
}
