// Tests of the parts of expressions.

ghost use Rattle.std.specs.Prelude.{◌≡◌};
ghost use Rattle.std.specs.List.{list_any};
ghost use Rattle.f77_forms.specs.View.{expression_of};
ghost use Rattle.f77_scene.specs.Tests as tests;
ghost use Rattle.f77_program.specs.Marks as spec;
ghost use Rattle.f77_program.specs.Operands.{forms_of};

use crate::known::Known;
use f77_forms::Expression;

/// What holds of some part of expressions.
#[derive(Clone, Copy, Debug, PartialEq, Eq)]
pub struct Marks {
    /// It is MIN or MAX of one argument.
    pub lone_call: bool,
    /// It is a name with arguments that is no array and no function.
    pub unknown_call: bool,
    /// It is the variable of a loop that is not round this place.
    pub read_outside: bool,
    /// It is an array without subscripts, or with too many or too few.
    pub wrong_subscripts: bool,
}

impl Marks {
    /// Of no part.
    pub fn new() -> Self
        ensures { result ≡ spec.no_marks }
    {
        Marks {
            lone_call: false,
            unknown_call: false,
            read_outside: false,
            wrong_subscripts: false,
        }
    }

    /// Of these parts and others.
    pub fn also(self, known: &Known, parts: &[&Expression]) -> Self
        ensures { result ≡ spec.also_marks self (spec.marks_among known.now (forms_of parts.now)) }
    {
        Marks {
            lone_call: self.lone_call || has_lone_call(known, parts),
            unknown_call: self.unknown_call || has_unknown_call(known, parts),
            read_outside: self.read_outside || has_outside_read(known, parts),
            wrong_subscripts: self.wrong_subscripts || has_wrong_subscripts(known, parts),
        }
    }
}

fn has_lone_call(known: &Known, parts: &[&Expression]) -> bool
    ensures { result ≡ list_any (tests.is_lone_call known.now) (forms_of parts.now) }
{
    for part in parts {
        if is_lone_call(known, part) {
            return true;
        }
    }
    false
}

fn has_unknown_call(known: &Known, parts: &[&Expression]) -> bool
    ensures { result ≡ list_any (tests.is_unknown_call known.now) (forms_of parts.now) }
{
    for part in parts {
        if is_unknown_call(known, part) {
            return true;
        }
    }
    false
}

fn has_outside_read(known: &Known, parts: &[&Expression]) -> bool
    ensures { result ≡ list_any (tests.is_read_outside known.now) (forms_of parts.now) }
{
    for part in parts {
        if is_read_outside(known, part) {
            return true;
        }
    }
    false
}

fn has_wrong_subscripts(known: &Known, parts: &[&Expression]) -> bool
    ensures { result ≡ list_any (tests.has_wrong_subscripts known.now) (forms_of parts.now) }
{
    for part in parts {
        if is_wrongly_subscripted(known, part) {
            return true;
        }
    }
    false
}

fn is_lone_call(known: &Known, part: &Expression) -> bool
    ensures { result ≡ tests.is_lone_call known.now (expression_of part.now) }
{
    match part {
        Expression::Call(name, arguments) => arguments.len() == 1 && known.is_function(name),
        _ => false,
    }
}

fn is_unknown_call(known: &Known, part: &Expression) -> bool
    ensures { result ≡ tests.is_unknown_call known.now (expression_of part.now) }
{
    match part {
        Expression::Call(name, _) => !known.is_array(name) && !known.is_function(name),
        _ => false,
    }
}

fn is_read_outside(known: &Known, part: &Expression) -> bool
    ensures { result ≡ tests.is_read_outside known.now (expression_of part.now) }
{
    match part {
        Expression::Name(name) => known.is_loop_variable(name) && !known.is_open(name),
        _ => false,
    }
}

fn is_wrongly_subscripted(known: &Known, part: &Expression) -> bool
    ensures { result ≡ tests.has_wrong_subscripts known.now (expression_of part.now) }
{
    match part {
        Expression::Name(name) => known.is_array(name),
        Expression::Call(name, arguments) => is_bad_rank(known, name, arguments.len()),
        _ => false,
    }
}

/// Whether this is an array with another number of dimensions.
pub fn is_bad_rank(known: &Known, name: &[u8], count: usize) -> bool
    ensures { result ≡ spec.has_other_rank known.now name.now count }
{
    known.is_array(name) && known.bounds(name).len() != count
}
