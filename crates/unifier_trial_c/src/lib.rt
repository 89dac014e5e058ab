// The archive of the unifier's trial: each entry of `unifier_trial` under its own name, with the same clauses.
// A slice crosses as a pointer and then a length.
#![tactic(auto)]

ghost use Rattle.std.specs.Prelude.{◌≡◌};
ghost use Rattle.unification.specs.Arena.{unify, solved};
ghost use Rattle.unifier_trial.specs.Numbers.{unified_as, told_as};

#[unsafe(no_mangle)]
pub extern "C" fn trial_unify(
    words: &mut [u32],
    budget: &mut u64,
    count: u32,
    a: u32,
    b: u32,
) -> u32
    ensures { unified_as result budget.new words.new ≡ unify count (words.old, a, b) budget.old }
{
    unifier_trial::trial_unify(words, budget, count, a, b)
}

#[unsafe(no_mangle)]
pub extern "C" fn trial_solved(words: &[u32], budget: &mut u64, count: u32, t: u32) -> u32
    ensures { told_as result budget.new ≡ solved words.now count t budget.old }
{
    unifier_trial::trial_solved(words, budget, count, t)
}
