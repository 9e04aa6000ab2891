// The rule of the table, and what each of its steps tells.

ghost use Rattle.std.specs.Prelude.{ℕ};
ghost use Rattle.shared_words.specs.Rule.{Shown, first_of, first_view, goes, learnt, loads, polls, rows, taken_in, taken_out, told, with_role};
ghost use Rattle.shared_words.specs.declared.roles.Role.TheVariants.{Over};
ghost use Rattle.shared_words.specs.declared.view.View.TheVariants.{Away};

use crate::view::{Given, View};
use atomic_table::{Join, Play, Split, TableRule};
use std::marker::{Brand, PhantomData};

/// Between any two steps the words and the seats show a state of the machine.
pub struct Rule;

impl<'a> TableRule<u8, View, Given<'a>> for Rule {
    ghost holds = { Shown };

    ghost first = { first_view };
}

/// A load, which gives the sequential value.
pub struct Load;

impl Play<u8, View> for Load {
    ghost then = { loads };
}

/// A store, an addition, a post, a signal or an arrival.
pub struct Go;

impl Play<u8, View> for Go {
    ghost then = { goes };
}

/// A look at another's counter or signal.
pub struct Look;

impl Play<u8, View> for Look {
    ghost then = { polls };
}

/// A look at the arrivals of all.
pub struct LookAround;

impl Play<u8, View> for LookAround {
    ghost then = { rows };
}

/// A processor that a call picks.
pub trait Which {
    ghost which: { ℕ };
}

impl Which for Brand {
    ghost which = { 0 };
}

/// A processor's seat is cut from the main one.
pub struct Cut<J: Which> {
    of: PhantomData<J>,
}

impl<J: Which> Split<View> for Cut<J> {
    ghost left = { taken_out J.which };

    ghost right = { first_of J.which };
}

/// It is joined to the main one again.
pub struct Glue;

impl Join<View> for Glue {
    ghost both = { taken_in };

    ghost spent = { Away };
}

/// A seat more, which knows that all have ended.
pub struct Twin;

impl Split<View> for Twin {
    ghost left = { λ v. v };

    ghost right = { λ v. with_role v Over };
}

/// A seat more, which knows what the other knows, and is nobody's.
pub struct Tell;

impl Split<View> for Tell {
    ghost left = { λ v. v };

    ghost right = { told };
}

/// A seat learns it, and adds its own place.
pub struct Learn;

impl Join<View> for Learn {
    ghost both = { learnt };

    ghost spent = { Away };
}
