// The scripts: what each does, one thing after another, and the operand that it hands on. See `play` of crate `machine` for how they are read.

ghost use Rattle.std.specs.Prelude.{◌≡◌};
ghost use Rattle.operators.specs.Scripts.{items_in, given_by, numbered};

use crate::Item::{Boolean, Equal, Integer, Power, Product, Unknown};
use crate::Operand::{Left, Own, Right};
use crate::Seat::{Far, Near, Whole};
use crate::{Item, Operand, Script};

// The scripts in their order, by number from 0 on.
const ALL: [Script; 43] = [
    Script::Nothing,
    Script::Integers,
    Script::Booleans,
    Script::Truth,
    Script::Succession,
    Script::EmptySet,
    Script::Identity,
    Script::FirstOf,
    Script::SecondOf,
    Script::Maplet,
    Script::Relations,
    Script::Difference,
    Script::Cartesian,
    Script::Direct,
    Script::Parallel,
    Script::DomainCut,
    Script::RangeCut,
    Script::Interval,
    Script::Arithmetic,
    Script::Application,
    Script::Image,
    Script::Cardinality,
    Script::Powerset,
    Script::Generalized,
    Script::Domain,
    Script::Range,
    Script::Extremum,
    Script::Converse,
    Script::Minus,
    Script::Set,
    Script::Power,
    Script::Equality,
    Script::Order,
    Script::Membership,
    Script::Inclusion,
    Script::Finite,
    Script::Unknown,
    Script::Relation,
    Script::Integer,
    Script::Forth,
    Script::Back,
    Script::ForthAll,
    Script::BackAll,
];

impl Script {
    // The script of a number; past the last there is none.
    #[tactic(auto, unfolding(crate::specs::Scripts::numbered, crate::specs::Scripts::in_order))]
    pub fn numbered(n: u8) -> Option<Script>
        ensures { result ≡ numbered n }
    {
        let i = usize::from(n);
        if i < ALL.len() {
            return Some(ALL[i]);
        }
        None
    }

    // What it does.
    #[tactic(auto, unfolding(crate::specs::Scripts::items_in))]
    pub fn items(self) -> &'static [Item]
        ensures { result.now ≡ items_in self }
    {
        match self {
            Script::Nothing => &[],
            Script::Integers => &[Integer, Power(Own(0))],
            Script::Booleans => &[Boolean, Power(Own(0))],
            Script::Truth => &[Boolean],
            Script::Succession => &[Integer, Integer, Product(Own(0), Own(1)), Power(Own(2))],
            Script::EmptySet => &[Unknown, Power(Own(0))],
            Script::Identity => &[Unknown, Product(Own(0), Own(0)), Power(Own(1))],
            Script::FirstOf => &[
                Unknown,
                Unknown,
                Product(Own(0), Own(1)),
                Product(Own(2), Own(0)),
                Power(Own(3)),
            ],
            Script::SecondOf => &[
                Unknown,
                Unknown,
                Product(Own(0), Own(1)),
                Product(Own(2), Own(1)),
                Power(Own(3)),
            ],
            Script::Maplet => &[Product(Left, Right)],
            Script::Relations => &[
                Unknown,
                Unknown,
                Power(Own(0)),
                Power(Own(1)),
                Equal(Left, Own(2), Whole),
                Equal(Right, Own(3), Whole),
                Product(Own(0), Own(1)),
                Power(Own(4)),
                Power(Own(5)),
            ],
            Script::Difference => &[
                Unknown,
                Power(Own(0)),
                Equal(Left, Own(1), Whole),
                Equal(Right, Own(1), Whole),
            ],
            Script::Cartesian => &[
                Unknown,
                Unknown,
                Power(Own(0)),
                Power(Own(1)),
                Equal(Left, Own(2), Whole),
                Equal(Right, Own(3), Whole),
                Product(Own(0), Own(1)),
                Power(Own(4)),
            ],
            Script::Direct => &[
                Unknown,
                Unknown,
                Unknown,
                Product(Own(0), Own(1)),
                Power(Own(3)),
                Product(Own(0), Own(2)),
                Power(Own(5)),
                Equal(Left, Own(4), Whole),
                Equal(Right, Own(6), Whole),
                Product(Own(1), Own(2)),
                Product(Own(0), Own(7)),
                Power(Own(8)),
            ],
            Script::Parallel => &[
                Unknown,
                Unknown,
                Unknown,
                Unknown,
                Product(Own(0), Own(1)),
                Power(Own(4)),
                Product(Own(2), Own(3)),
                Power(Own(6)),
                Equal(Left, Own(5), Whole),
                Equal(Right, Own(7), Whole),
                Product(Own(0), Own(2)),
                Product(Own(1), Own(3)),
                Product(Own(8), Own(9)),
                Power(Own(10)),
            ],
            Script::DomainCut => &[
                Unknown,
                Unknown,
                Power(Own(0)),
                Product(Own(0), Own(1)),
                Power(Own(3)),
                Equal(Left, Own(2), Whole),
                Equal(Right, Own(4), Whole),
            ],
            Script::RangeCut => &[
                Unknown,
                Unknown,
                Product(Own(0), Own(1)),
                Power(Own(2)),
                Power(Own(1)),
                Equal(Left, Own(3), Whole),
                Equal(Right, Own(4), Whole),
            ],
            Script::Interval => &[
                Integer,
                Equal(Left, Own(0), Whole),
                Equal(Right, Own(0), Whole),
                Power(Own(0)),
            ],
            Script::Arithmetic => &[
                Integer,
                Equal(Left, Own(0), Whole),
                Equal(Right, Own(0), Whole),
            ],
            Script::Application => &[
                Unknown,
                Unknown,
                Product(Own(0), Own(1)),
                Power(Own(2)),
                Equal(Left, Own(3), Whole),
                Equal(Right, Own(0), Whole),
            ],
            Script::Image => &[
                Unknown,
                Unknown,
                Product(Own(0), Own(1)),
                Power(Own(2)),
                Power(Own(0)),
                Equal(Left, Own(3), Whole),
                Equal(Right, Own(4), Whole),
                Power(Own(1)),
            ],
            Script::Cardinality => &[Unknown, Power(Own(0)), Equal(Left, Own(1), Near), Integer],
            Script::Powerset => &[
                Unknown,
                Power(Own(0)),
                Equal(Left, Own(1), Near),
                Power(Own(1)),
            ],
            Script::Generalized => &[
                Unknown,
                Power(Own(0)),
                Power(Own(1)),
                Equal(Left, Own(2), Near),
            ],
            Script::Domain => &[
                Unknown,
                Unknown,
                Product(Own(0), Own(1)),
                Power(Own(2)),
                Equal(Left, Own(3), Near),
                Power(Own(0)),
            ],
            Script::Range => &[
                Unknown,
                Unknown,
                Product(Own(0), Own(1)),
                Power(Own(2)),
                Equal(Left, Own(3), Near),
                Power(Own(1)),
            ],
            Script::Extremum => &[Integer, Power(Own(0)), Equal(Left, Own(1), Near)],
            Script::Converse => &[
                Unknown,
                Unknown,
                Product(Own(0), Own(1)),
                Power(Own(2)),
                Equal(Left, Own(3), Near),
                Product(Own(1), Own(0)),
                Power(Own(4)),
            ],
            Script::Minus => &[Integer, Equal(Left, Own(0), Near)],
            Script::Set => &[Unknown, Power(Own(0)), Equal(Left, Own(1), Near)],
            Script::Power => &[Power(Left)],
            Script::Equality => &[Equal(Left, Right, Whole)],
            Script::Order => &[
                Integer,
                Equal(Left, Own(0), Near),
                Equal(Right, Own(0), Far),
            ],
            Script::Membership => &[Power(Left), Equal(Right, Own(0), Whole)],
            Script::Inclusion => &[
                Unknown,
                Power(Own(0)),
                Equal(Left, Own(1), Near),
                Equal(Right, Own(1), Far),
                Equal(Left, Right, Whole),
            ],
            Script::Finite => &[Unknown, Power(Own(0)), Equal(Left, Own(1), Near)],
            Script::Unknown => &[Unknown],
            Script::Relation => &[Unknown, Unknown, Product(Own(0), Own(1)), Power(Own(2))],
            Script::Integer => &[Integer],
            Script::Forth => &[Unknown, Product(Left, Own(0)), Power(Own(1))],
            Script::Back => &[Unknown, Product(Own(0), Left), Power(Own(1))],
            Script::ForthAll => &[Product(Left, Right), Power(Own(0))],
            Script::BackAll => &[Product(Right, Left), Power(Own(0))],
        }
    }

    // What it gives.
    #[tactic(auto, unfolding(crate::specs::Scripts::given_by))]
    pub fn gives(self) -> Operand
        ensures { result ≡ given_by self }
    {
        match self {
            Script::Nothing => Left,
            Script::Integers => Own(1),
            Script::Booleans => Own(1),
            Script::Truth => Own(0),
            Script::Succession => Own(3),
            Script::EmptySet => Own(1),
            Script::Identity => Own(2),
            Script::FirstOf => Own(4),
            Script::SecondOf => Own(4),
            Script::Maplet => Own(0),
            Script::Relations => Own(6),
            Script::Difference => Own(1),
            Script::Cartesian => Own(5),
            Script::Direct => Own(9),
            Script::Parallel => Own(11),
            Script::DomainCut => Own(4),
            Script::RangeCut => Own(3),
            Script::Interval => Own(1),
            Script::Arithmetic => Own(0),
            Script::Application => Own(1),
            Script::Image => Own(5),
            Script::Cardinality => Own(2),
            Script::Powerset => Own(2),
            Script::Generalized => Own(1),
            Script::Domain => Own(4),
            Script::Range => Own(4),
            Script::Extremum => Own(0),
            Script::Converse => Own(5),
            Script::Minus => Own(0),
            Script::Set => Own(1),
            Script::Power => Own(0),
            Script::Equality => Left,
            Script::Order => Left,
            Script::Membership => Left,
            Script::Inclusion => Left,
            Script::Finite => Left,
            Script::Unknown => Own(0),
            Script::Relation => Own(3),
            Script::Integer => Own(0),
            Script::Forth => Own(2),
            Script::Back => Own(2),
            Script::ForthAll => Own(1),
            Script::BackAll => Own(1),
        }
    }
}
