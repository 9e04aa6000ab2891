// Plans of a parallel run.

ghost use Rattle.std.specs.Prelude.{◌≡◌};

use farkas_cert::Certificate;
use nest_tree::{Listed, Pairs};
use owner_partition::{Anchor, Cut};
use std::alloc::{AllocError, Global};

/// The version of a plan and of its text. A later one has all forms of the earlier ones.
#[derive(Clone, Copy, Debug, PartialEq, Eq, PartialOrd, Ord)]
pub enum Version {
    /// What orders two instances is one boundary.
    One,
    /// Chains of boundaries between neighbours order them too.
    Two,
    /// The plan has conditions on the named constants.
    Three,
    /// The plan may have Sum loops.
    Four,
    /// The plan may have private scalars.
    Five,
}

impl Version {
    ghost use Rattle.sync_plan.specs.Shape.{has_privates, has_rows, has_sums};

    /// Whether plans of this version may have rows of conditions.
    pub fn has_rows(self) -> bool
        ensures { result ≡ has_rows self }
    {
        match self {
            Version::One | Version::Two => false,
            Version::Three | Version::Four | Version::Five => true,
        }
    }

    /// Whether plans of this version may have Sum loops.
    pub fn has_sums(self) -> bool
        ensures { result ≡ has_sums self }
    {
        matches!(self, Version::Four | Version::Five)
    }

    /// Whether plans of this version may have private scalars.
    pub fn has_privates(self) -> bool
        ensures { result ≡ has_privates self }
    {
        matches!(self, Version::Five)
    }
}

/// What stands in front of a phase: whom a processor waits for before it begins its part. The
/// processors are numbered from 0.
#[derive(Drop)]
pub enum Kind {
    /// Nobody.
    Nothing,
    /// The owner that this anchor names at the phase's Outer values.
    Producer(Anchor),
    /// The processor with the next lower number.
    Left,
    /// The processor with the next higher number.
    Right,
    /// Both of these.
    Both,
    /// All others.
    Barrier,
    /// All others; the running workers end their leg there and are forked again.
    Join,
}

impl Kind {
    ghost use Rattle.std.specs.Option.{option_copied};
    ghost use Rattle.std.specs.Prelude.{IfOk, map};
    ghost use Rattle.sync_plan.specs.Kinds.{all_words, anchor_in, kind_word, plain_kind, strength};

    /// The anchor of the owner that is waited for. Only a producer has one.
    pub fn anchor(&self) -> Option<&Anchor>
        ensures { option_copied result ≡ anchor_in self.now }
    {
        match self {
            Kind::Producer(anchor) => Some(anchor),
            Kind::Nothing | Kind::Left | Kind::Right | Kind::Both => None,
            Kind::Barrier | Kind::Join => None,
        }
    }

    /// What it is called in a plan.
    pub fn word(&self) -> &'static str
        ensures { result.now ≡ kind_word self.now }
    {
        match self {
            Kind::Nothing => "NOTHING",
            Kind::Producer(_) => "PRODUCER",
            Kind::Left => "LEFT",
            Kind::Right => "RIGHT",
            Kind::Both => "BOTH",
            Kind::Barrier => "BARRIER",
            Kind::Join => "JOIN",
        }
    }

    /// Whom a processor waits for, in words for a reader: no clause says which.
    pub fn whom(&self) -> &'static str {
        match self {
            Kind::Nothing => "nobody",
            Kind::Producer(_) => "the owner of a place",
            Kind::Left => "its left neighbour",
            Kind::Right => "its right neighbour",
            Kind::Both => "both neighbours",
            Kind::Barrier => "all others",
            Kind::Join => "all others, and is forked again",
        }
    }

    /// What the kinds are called, from the weakest on.
    pub fn words() -> [&'static str; 7]
        ensures { map (λ w. w.now) result ≡ all_words }
    {
        [
            "NOTHING", "PRODUCER", "LEFT", "RIGHT", "BOTH", "BARRIER", "JOIN",
        ]
    }

    /// The kind without an anchor that a word names, `Join` where no other is called so.
    pub fn plain(word: &[u8]) -> Kind
        ensures { result ≡ plain_kind word.now }
    {
        if word == b"NOTHING".as_slice() {
            Kind::Nothing
        } else if word == b"LEFT".as_slice() {
            Kind::Left
        } else if word == b"RIGHT".as_slice() {
            Kind::Right
        } else if word == b"BOTH".as_slice() {
            Kind::Both
        } else if word == b"BARRIER".as_slice() {
            Kind::Barrier
        } else {
            Kind::Join
        }
    }

    /// How strong a wait is, from 0 for `Nothing` to 5 for `Join`. Of two the weaker one waits for
    /// no more.
    pub fn strength(&self) -> u32
        ensures { result ≡ strength self.now }
    {
        match self {
            Kind::Nothing => 0,
            Kind::Producer(_) => 1,
            Kind::Left | Kind::Right => 2,
            Kind::Both => 3,
            Kind::Barrier => 4,
            Kind::Join => 5,
        }
    }

    /// The same kind.
    pub fn copy(&self, alloc: Global) -> Result<Self, AllocError>
        ensures { IfOk result (λ copy. copy ≡ self.now) }
    {
        Ok(match self {
            Kind::Nothing => Kind::Nothing,
            Kind::Producer(anchor) => Kind::Producer(anchor.copy(alloc)?),
            Kind::Left => Kind::Left,
            Kind::Right => Kind::Right,
            Kind::Both => Kind::Both,
            Kind::Barrier => Kind::Barrier,
            Kind::Join => Kind::Join,
        })
    }
}

/// A row of a plan's conditions: coefficients of named constants, by their numbers from 1, times
/// their values are at most the bound. A row that a plan of a fitting shape has names at least
/// one, by rising numbers, with coefficients other than 0.
#[derive(Drop)]
pub struct ConditionRow {
    pub coefs: Pairs,
    pub bound: i64,
}

/// For which values of the named constants a plan is checked.
#[derive(Drop)]
pub enum Conditions {
    /// For those that the program has.
    Values,
    /// For all that meet these rows.
    Rows(Listed<ConditionRow>),
}

/// The plan of a parallel run: how many workers there are, which loops are what, who owns what in
/// each static phase, what stands in front of each, and the certificates that show it to be right.
#[derive(Drop)]
pub struct Plan {
    pub version: Version,
    pub conditions: Conditions,
    /// The number of processors, 1 to 64 in a plan of a fitting shape.
    pub workers: u32,
    pub cut: Cut,
    /// Of the static phases, which are numbered from 1 in text order.
    pub anchors: Listed<Anchor>,
    /// In front of the static phases.
    pub kinds: Listed<Kind>,
    /// Numbered from 1 as the obligations are.
    pub certificates: Listed<Certificate>,
}

impl Plan {
    ghost use Rattle.std.specs.Option.{option_copied};
    ghost use Rattle.std.specs.Prelude.{◌-◌, slice_get};

    /// The anchor of the static phase with this number, from 1; none where the plan has none.
    pub fn anchor(&self, number: u32) -> Option<&Anchor>
        ensures { option_copied result ≡ slice_get self.now.anchors (number - 1) }
    {
        self.anchors
            .as_slice()
            .get((number as usize).saturating_sub(1))
    }

    /// What stands in front of the static phase with this number, from 1; none where the plan has
    /// nothing for it.
    pub fn kind(&self, number: u32) -> Option<&Kind>
        ensures { option_copied result ≡ slice_get self.now.kinds (number - 1) }
    {
        self.kinds
            .as_slice()
            .get((number as usize).saturating_sub(1))
    }
}
