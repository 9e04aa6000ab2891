// Expressions, and the cells that they load.

ghost use Rattle.std.specs.Prelude.{◌≡◌, ◌<◌, ◌++◌, IsTrue, OnOk, codes, length, string_bytes};
ghost use Rattle.nest_tree.specs.View.{expression_of, expressions_from, tree_of};
ghost use Rattle.c_expressions.specs.Grammar.{is_name};
ghost use Rattle.c_expressions.specs.Told.{AppendsAccess, AppendsChoice, AppendsValue, opens, place_of_first};

use crate::place::Place;
use crate::scope::Scope;
use crate::sums::put_sum;
use crate::text::{put_if, put_literal, put_loop_word, put_text, put_word};
use nest_tree::{Access, Affine, Expr};
use std::alloc::AllocError;

impl Scope<'_> {
    /// Appends the cell of an access.
    pub fn put_access(&self, out: &mut String, access: &Access) -> Result<(), AllocError>
        ensures { OnOk result
            (AppendsAccess (tree_of self.now.program.now) self.now.privates.now access.now
            (string_bytes out.old) (string_bytes out.new)) }
    {
        let subscripts = access.subscripts.as_slice();
        if subscripts.is_empty() {
            self.put_scalar(out, access.variable)
        } else {
            self.put_name(out, "v_", access.variable)?;
            put_text(out, "[")?;
            let place = self.element(subscripts, self.bounds(access.variable))?;
            put_sum(out, &place)?;
            put_text(out, "]")
        }
    }

    /// Appends an expression in such a place.
    #[cycle(value)]
    pub fn put_value(&self, out: &mut String, e: &Expr, place: Place) -> Result<(), AllocError>
        ensures { OnOk result (AppendsValue (tree_of self.now.program.now) self.now.privates.now
            (expression_of e.now) place (string_bytes out.old) (string_bytes out.new)) }
    {
        match e {
            Expr::Number(number) => put_word(out, *number),
            Expr::Param(number) => put_word(out, self.parameter(*number)),
            Expr::LoopValue(number) => put_loop_word(out, *number),
            Expr::Load(access) => self.put_access(out, access),
            Expr::Neg(a) => {
                let is_looser = Place::Sum.is_looser(place);
                put_if(out, is_looser, "(")?;
                put_text(out, "0 - ")?;
                self.put_value(out, a, Place::Product)?;
                put_if(out, is_looser, ")")
            }
            Expr::Add(a, b) => {
                let is_looser = Place::Sum.is_looser(place);
                put_if(out, is_looser, "(")?;
                self.put_value(out, a, Place::Sum)?;
                put_text(out, " + ")?;
                self.put_value(out, b, Place::Product)?;
                put_if(out, is_looser, ")")
            }
            Expr::Sub(a, b) => {
                let is_looser = Place::Sum.is_looser(place);
                put_if(out, is_looser, "(")?;
                self.put_value(out, a, Place::Sum)?;
                put_text(out, " - ")?;
                self.put_value(out, b, Place::Product)?;
                put_if(out, is_looser, ")")
            }
            Expr::Mul(a, b) => {
                let is_looser = Place::Product.is_looser(place);
                put_if(out, is_looser, "(")?;
                self.put_value(out, a, Place::Product)?;
                put_text(out, "*")?;
                self.put_value(out, b, Place::Factor)?;
                put_if(out, is_looser, ")")
            }
            Expr::Div(a, divisor) => {
                put_text(out, "over(")?;
                self.put_value(out, a, Place::Sum)?;
                put_text(out, ", ")?;
                put_literal(out, *divisor)?;
                put_text(out, ")")
            }
            Expr::Min(arguments) => self.put_chosen(out, "least", arguments),
            Expr::Max(arguments) => self.put_chosen(out, "greatest", arguments),
        }
    }

    // Appends the least or the greatest of arguments, two at a time from the first on.
    #[cycle(value)]
    fn put_chosen(&self, out: &mut String, word: &str, arguments: &[Expr]) -> Result<(), AllocError>
        requires { IsTrue (is_name word.now) }
        ensures { OnOk result
            (AppendsChoice (tree_of self.now.program.now) self.now.privates.now word.now
            (expressions_from arguments.now) (string_bytes out.old) (string_bytes out.new)) }
    {
        let Some((first, rest)) = arguments.split_first() else {
            return put_text(out, "0");
        };
        put_opens(out, word, rest.len())?;
        self.put_value(out, first, place_of_first(rest.len()))?;
        for e in rest {
            put_text(out, ", ")?;
            self.put_value(out, e, Place::Sum)?;
            put_text(out, ")")?;
        }
        Ok(())
    }
}

// Appends so many calls that are begun.
fn put_opens(out: &mut String, word: &str, count: usize) -> Result<(), AllocError>
    ensures { OnOk result (string_bytes out.new ≡ string_bytes out.old ++ opens word.now count) }
{
    for _ in 0..count {
        put_text(out, word)?;
        put_text(out, "(")?;
    }
    Ok(())
}

// The place of the first argument: alone it has no call around it.
fn place_of_first(others: usize) -> Place
    ensures { result ≡ place_of_first others }
{
    if others == 0 {
        Place::Factor
    } else {
        Place::Sum
    }
}
