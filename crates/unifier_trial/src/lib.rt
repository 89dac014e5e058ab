// The unifier for a Rust host that measures it and compares it with a plain one: references are numbers, the budget goes in and out by `budget`,
// and the result is 0 for yes, 1 for no, 100 for a mismatch, 101 for a circularity, 7 for a spent budget and 2 for a broken node.
// The numbers are those of the exports of crate `unifier_trial_c`. With 7 and 2 the budget stays as it was given.
#![tactic(auto)]

ghost use Rattle.std.specs.Prelude.{◌≡◌};
ghost use Rattle.unification.specs.Arena.{unify, solved};
ghost use Rattle.unifier_trial.specs.Numbers.{unified_as, told_as};

use types::NodeRef;
use unifier::{Halt, Verdict};

pub fn trial_unify(words: &mut [u32], budget: &mut u64, count: u32, a: u32, b: u32) -> u32
    ensures { unified_as result budget.new words.new ≡ unify count (words.old, a, b) budget.old }
{
    match unifier::unify(words, count, NodeRef(a), NodeRef(b), budget) {
        Ok(verdict) => {
            match verdict {
                Verdict::Done => 0,
                Verdict::Mismatch => 100,
                Verdict::Circular => 101,
            }
        }
        Err(Halt::Spent) => 7,
        Err(Halt::Broken) => 2,
    }
}

pub fn trial_solved(words: &[u32], budget: &mut u64, count: u32, t: u32) -> u32
    ensures { told_as result budget.new ≡ solved words.now count t budget.old }
{
    match unifier::solved(words, count, NodeRef(t), budget) {
        Ok(known) => { if known { 0 } else { 1 } }
        Err(Halt::Spent) => 7,
        Err(Halt::Broken) => 2,
    }
}
