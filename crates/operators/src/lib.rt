// The rules of the operators as data: the nodes and comparisons of each are a script.
#![tactic(auto)]

mod scripts;

ghost use Rattle.std.specs.Prelude.{◌≡◌, ℕ};
ghost use Rattle.operators.specs.Operators.{check_atomic_of, check_binary_of, check_unary_of, check_quantified_of, check_relational_of, check_associative_of};

// What is played: its items, and the operand that it gives, stand in `scripts`.
#[derive(Clone, Copy, PartialEq, Eq)]
pub enum Script {
    // no node, no comparison; gives its left part
    Nothing,
    // ℤ, ℕ, ℕ1: P(ℤ)
    Integers,
    // BOOL: P(BOOL)
    Booleans,
    // TRUE, FALSE: BOOL
    Truth,
    // pred, succ: P(ℤ × ℤ)
    Succession,
    // ∅: P(α)
    EmptySet,
    // id: P(α × α)
    Identity,
    // prj1: P((α × β) × α)
    FirstOf,
    // prj2: P((α × β) × β)
    SecondOf,
    // ↦
    Maplet,
    // ↔ and its family
    Relations,
    // ∖
    Difference,
    // ×
    Cartesian,
    // ⊗
    Direct,
    // ∥
    Parallel,
    // ◁, ⩤
    DomainCut,
    // ▷, ⩥
    RangeCut,
    // ..
    Interval,
    // −, ÷, mod, ^
    Arithmetic,
    // f(x)
    Application,
    // r[s]
    Image,
    // card
    Cardinality,
    // ℙ, ℙ1
    Powerset,
    // union, inter
    Generalized,
    // dom
    Domain,
    // ran
    Range,
    // min, max
    Extremum,
    // r∼
    Converse,
    // unary −
    Minus,
    // quantified union and intersection: the expression is a set
    Set,
    // comprehension, and a set extension once its members are walked: P of the part
    Power,
    // =, ≠
    Equality,
    // <, ≤, >, ≥
    Order,
    // ∈, ∉
    Membership,
    // ⊂, ⊄, ⊆, ⊈
    Inclusion,
    // finite: the expression is a set
    Finite,
    // α
    Unknown,
    // P(α × β)
    Relation,
    // ℤ
    Integer,
    // forward composition: the next target, and the relation from the last one to it
    Forth,
    // backward composition: the next source, and the relation from it to the last one
    Back,
    // forward composition: from the first source to the last target
    ForthAll,
    // backward composition: from the last source to the first target
    BackAll,
}

// An operand of an item: the left or the right part of the record, or one of the script's own nodes, counted from 0.
#[derive(Clone, Copy, PartialEq, Eq)]
pub enum Operand {
    Left,
    Right,
    Own(u8),
}

// Where a comparison stands: at the record, or at its left or its right part.
#[derive(Clone, Copy, PartialEq, Eq)]
pub enum Seat {
    Whole,
    Near,
    Far,
}

// One thing that a script does: it makes a node, or compares two operands.
#[derive(Clone, Copy, PartialEq, Eq)]
pub enum Item {
    Unknown,
    Boolean,
    Integer,
    Power(Operand),
    Product(Operand, Operand),
    Equal(Operand, Operand, Seat),
}

// The rule of an operator, by its number: the script that is played once its parts are walked.
// An operator is its number of the format: an enum between the head and its script would be matched once, here, on the same rows, and
// `check_binary_of` and its like are over the numbers.

#[tactic(auto, using(forms::specs::Forms::yes_le, forms::specs::Forms::no_le, forms::specs::Forms::yes_eq, forms::specs::Forms::no_eq), unfolding(crate::specs::Operators::check_atomic_of))]
pub fn check_atomic(op: u8) -> Script
    ensures { result ≡ check_atomic_of op }
{
    match op {
        0..=2 => Script::Integers,
        3 => Script::Booleans,
        4..=5 => Script::Truth,
        6..=7 => Script::Succession,
        8 => Script::EmptySet,
        9 => Script::Identity,
        10 => Script::FirstOf,
        _ => Script::SecondOf,
    }
}

#[tactic(auto, using(forms::specs::Forms::yes_le, forms::specs::Forms::no_le, forms::specs::Forms::yes_eq, forms::specs::Forms::no_eq), unfolding(crate::specs::Operators::check_binary_of))]
pub fn check_binary(op: u8) -> Script
    ensures { result ≡ check_binary_of op }
{
    match op {
        0 => Script::Maplet,
        1..=11 => Script::Relations,
        12 => Script::Difference,
        13 => Script::Cartesian,
        14 => Script::Direct,
        15 => Script::Parallel,
        16..=17 => Script::DomainCut,
        18..=19 => Script::RangeCut,
        20 => Script::Interval,
        21..=24 => Script::Arithmetic,
        25 => Script::Application,
        _ => Script::Image,
    }
}

#[tactic(auto, using(forms::specs::Forms::yes_le, forms::specs::Forms::no_le, forms::specs::Forms::yes_eq, forms::specs::Forms::no_eq), unfolding(crate::specs::Operators::check_unary_of))]
pub fn check_unary(op: u8) -> Script
    ensures { result ≡ check_unary_of op }
{
    match op {
        0 => Script::Cardinality,
        1..=2 => Script::Powerset,
        3..=4 => Script::Generalized,
        5 => Script::Domain,
        6 => Script::Range,
        7..=8 => Script::Extremum,
        9 => Script::Converse,
        _ => Script::Minus,
    }
}

#[tactic(auto, using(forms::specs::Forms::yes_le, forms::specs::Forms::no_le, forms::specs::Forms::yes_eq, forms::specs::Forms::no_eq), unfolding(crate::specs::Operators::check_quantified_of))]
pub fn check_quantified(op: u8) -> Script
    ensures { result ≡ check_quantified_of op }
{
    match op {
        0..=1 => Script::Set,
        _ => Script::Power,
    }
}

#[tactic(auto, using(forms::specs::Forms::yes_le, forms::specs::Forms::no_le, forms::specs::Forms::yes_eq, forms::specs::Forms::no_eq), unfolding(crate::specs::Operators::check_relational_of))]
pub fn check_relational(op: u8) -> Script
    ensures { result ≡ check_relational_of op }
{
    match op {
        0..=1 => Script::Equality,
        2..=5 => Script::Order,
        6..=7 => Script::Membership,
        _ => Script::Inclusion,
    }
}

// What is done with any number of children: a script before them, a script before each one that gives what it is compared with, and a script after
// them.
#[derive(Clone, Copy)]
pub struct Plan {
    pub first: Script,
    pub link: Script,
    pub last: Script,
    pub mode: Mode,
}

// What each child is compared with.
#[derive(Clone, Copy, PartialEq, Eq)]
pub enum Mode {
    // nothing
    Loose,
    // the same node
    Same,
    // a node of its own, which begins where the one before it ended
    Linked,
}

#[tactic(auto, using(forms::specs::Forms::yes_le, forms::specs::Forms::no_le, forms::specs::Forms::yes_eq, forms::specs::Forms::no_eq), unfolding(crate::specs::Operators::check_associative_of))]
pub fn check_associative(op: u8) -> Plan
    ensures { result ≡ check_associative_of op }
{
    match op {
        0..=1 => Plan {
            first: Script::EmptySet,
            link: Script::Nothing,
            last: Script::Nothing,
            mode: Mode::Same,
        },
        2 => Plan {
            first: Script::Relation,
            link: Script::Nothing,
            last: Script::Nothing,
            mode: Mode::Same,
        },
        3 => Plan {
            first: Script::Unknown,
            link: Script::Forth,
            last: Script::ForthAll,
            mode: Mode::Linked,
        },
        4 => Plan {
            first: Script::Unknown,
            link: Script::Back,
            last: Script::BackAll,
            mode: Mode::Linked,
        },
        _ => Plan {
            first: Script::Integer,
            link: Script::Nothing,
            last: Script::Nothing,
            mode: Mode::Same,
        },
    }
}
