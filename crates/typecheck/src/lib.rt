// Inference: a formula's one typing, its problems, or a numbered refusal, from bytes to bytes. Sizes are tested first, then the forms of environment and
// formula; then the formula is walked over the lent words, names and slots are tested, and the answer is written. Whatever the inputs are, `infer` answers,
// and what it leaves in output and work follows from the inputs alone.
#![tactic(auto)]

ghost use Rattle.std.specs.Prelude.{◌≡◌, List, ℕ, ◌+◌, ◌*◌, ◌≤◌, length, take};
ghost use Rattle.runner.specs.Run.{run_of, judged, judge_of};
ghost use Rattle.formula.specs.Parse.{parse_of, form_of};
ghost use Rattle.inference.specs.Infer.{infer_of};
ghost use Rattle.runner.specs.Answers.{called, call_of};
ghost use Rattle.runner.specs.Calls.{formula_call};

use machine::Machine;
use runner::{Answer, Input, Refusal};

// The walk, the tests and the answer over a part of the work slice that is just the arena and the book. The book is empty at first but for the
// environment's types. Its parameters are what `infer` was given, as at `infer_formula`.
#[tactic(auto, using(machine::specs::Seen::still, finisher::specs::Still::still, runner::specs::Stops::judge_stops), unfolding(runner::specs::Run::run_of, forms::specs::Forms::then))]
fn walk(
    formula: &[u8],
    environment: &[u8],
    types: &[u32; 256],
    size: u32,
    budget: u64,
    output: &mut [u8],
    work: &mut [u32],
) -> Answer
    ensures { judged result output.new ≡ judge_of budget (run_of formula.now environment.now types.now size budget (take (size + 4096) work.old) output.old) }
{
    let n = work.len().min(size as usize + types::BOOK);
    let (arena, book) = work[..n].split_at_mut(n.min(size as usize));
    memory::clear_words(book, 0);
    let mut machine = Machine::new(formula, environment, budget, arena, book, output);
    runner::enter_types(&mut machine, types);
    walker::formula(&mut machine)?;
    finisher::finish(&mut machine)?;
    runner::judge(&mut machine, budget)
}

// Inference over inputs whose sizes are in order and whose environment is well formed.
// Its parameters are those of `infer`, a public signature, and the types: a struct of them would be filled there and emptied by `Machine::new`.
fn infer_formula(
    formula: &[u8],
    environment: &[u8],
    types: &[u32; 256],
    names: u32,
    capacity: u32,
    budget: u64,
    output: &mut [u8],
    work: &mut [u32],
) -> Answer
    requires { capacity ≤ 32768 }
    ensures { called result output.new work.new ≡ formula_call (form_of (parse_of names formula.now)) formula.now environment.now types.now capacity budget output.old work.old }
{
    match formula::check_formula(formula, names) {
        Err(error) => runner::refuse(Input::Formula, error, output, work),
        Ok(()) => {
            let answer = walk(
                formula,
                environment,
                types,
                capacity * 3,
                budget,
                output,
                work,
            );
            runner::close(answer, output, work)
        }
    }
}

// Infers the types of a formula under an environment.
//
// `names` is the count of names, `capacity` of nodes, `budget` of units; `work` is lent memory of at least 3 × capacity + 4,096 words. The answer's bytes
// stand at the output's start.
pub fn infer(
    formula: &[u8],
    environment: &[u8],
    names: u32,
    capacity: u32,
    budget: u64,
    output: &mut [u8],
    work: &mut [u32],
) -> Answer
    ensures { called result output.new work.new ≡ call_of (infer_of formula.now environment.now names capacity budget (length output.old) (length work.old)) output.old work.old }
{
    if !runner::fits(
        formula.len(),
        environment.len(),
        names,
        capacity,
        work.len(),
    ) {
        return Err(Refusal::Oversized);
    }
    let tested = formula::check_environment(environment, names);
    // bound first: a match on a field proves nothing of it
    let form = tested.form;
    match form {
        Err(error) => runner::refuse(Input::Environment, error, output, work),
        Ok(()) => {
            let types = tested.types;
            infer_formula(
                formula,
                environment,
                &types,
                names,
                capacity,
                budget,
                output,
                work,
            )
        }
    }
}
