// The tree of the statements so far.

ghost use Rattle.std.specs.Prelude.{◌≡◌, ◌<◌, ◌^◌, [], ◌∷◌, map, length, IfOk, OnOk};
ghost use Rattle.nest_tree.specs.View.{statement_of};
ghost use Rattle.f77_forms.specs.View as forms;
ghost use Rattle.f77_program.specs.Reaches.{reach_of};
ghost use Rattle.f77_program.specs.declared.reach.Reach.TheVariants.{Within};
ghost use Rattle.f77_scene.specs.Tests.{affine_in};
ghost use Rattle.f77_scene.specs.Trees as trees;
ghost use Rattle.f77_source.specs.Bodies as spec;

use crate::form::form_of;
use crate::item::push_item;
use f77_forms::{DoStatement, Expression, Statement};
use f77_program::{Known, Names, value_of};
use nest_tree::{Affine, Item, Nest};
use std::alloc::{AllocError, Global};
use std::mem;

/// A loop whose terminal statement is still to come.
#[derive(Drop)]
pub struct Begun {
    /// The label of its terminal statement.
    pub label: u64,
    pub number: u32,
    pub m1: Affine,
    pub m2: Affine,
    pub step: i64,
    pub line: u32,
    /// What stands in front of it in the body of the loop round it.
    pub front: Vec<Item>,
}

/// The tree of the statements so far.
#[derive(Drop)]
pub struct Body {
    /// The loops that are open, the innermost first.
    pub begun: Vec<Begun>,
    /// The body of the innermost open loop so far, or the program's outermost statements.
    pub items: Vec<Item>,
}

impl Body {
    ghost use Rattle.f77_source.specs.Bodies.{body_of};
    ghost use Rattle.f77_scene.specs.Trees.{first_body, body_behind};

    /// In front of the first statement.
    pub fn new(alloc: Global) -> Self
        ensures { body_of result ≡ first_body }
    {
        Body {
            begun: Vec::new(alloc),
            items: Vec::new(alloc),
        }
    }

    /// Behind a statement without a fault that begins at this line and has this label; `known` is
    /// what is known in front of it.
    pub fn add(
        &mut self,
        alloc: Global,
        known: &Known,
        variables: &Names,
        line: u32,
        label: u32,
        statement: &Statement,
    ) -> Result<(), AllocError>
        requires few { length variables.now < 4294967295 }
        requires loops { known.now.loops < 2 ^ 31 }
        requires affine { reach_of known.now (affine_in known.now
            (forms.statement_of statement.now)) ≡ Within }
        ensures { OnOk result (body_of self.new ≡ body_behind variables.now known.now line label
            (forms.statement_of statement.now) (body_of self.old)) }
    {
        match statement {
            Statement::Program(_) => Ok(()),
            Statement::Integer(_) => Ok(()),
            Statement::Dimension(_) => Ok(()),
            Statement::Parameter(_) => Ok(()),
            Statement::Do(statement) => self.open(alloc, known, line, statement),
            _ => {
                push_item(alloc, known, variables, line, statement, &mut self.items)?;
                self.close(label)
            }
        }
    }

    /// Behind a DO statement the body of its loop begins.
    fn open(
        &mut self,
        alloc: Global,
        known: &Known,
        line: u32,
        statement: &DoStatement,
    ) -> Result<(), AllocError>
        requires loops { known.now.loops < 2 ^ 31 }
        requires affine { reach_of known.now (forms.expression_of statement.now.first
            ∷ forms.expression_of statement.now.last ∷ []) ≡ Within }
        ensures { OnOk result (body_of self.new ≡ trees.body_behind_do known.now line
            (forms.do_of statement.now) (body_of self.old)) }
    {
        let m1 = form_of(alloc, known, &statement.first)?;
        let m2 = form_of(alloc, known, &statement.last)?;
        let step = step_value(alloc, known, &statement.step)?;
        let front = mem::replace(&mut self.items, Vec::new(alloc));
        let begun = Begun {
            label: statement.label.value(),
            number: known.loops() + 1,
            m1,
            m2,
            step,
            line,
            front,
        };
        self.begun.insert(0, begun)?;
        Ok(())
    }

    /// The open loops of this label end here, the innermost first.
    fn close(&mut self, label: u32) -> Result<(), AllocError>
        ensures { OnOk result (body_of self.new ≡ trees.closed label (body_of self.old).begun
            (body_of self.old).items) }
    {
        while ends_first(label, &self.begun) {
            let begun = self.begun.remove(0);
            self.end(begun)?;
        }
        Ok(())
    }

    /// This loop ends here.
    fn end(&mut self, begun: Begun) -> Result<(), AllocError>
        ensures loops { OnOk result (self.new.begun ≡ self.old.begun) }
        ensures items { OnOk result (map statement_of self.new.items.items
            ≡ spec.ended (spec.begun_of begun) (map statement_of self.old.items.items)) }
    {
        let Begun {
            label: _,
            number,
            m1,
            m2,
            step,
            line,
            front,
        } = begun;
        let items = mem::replace(&mut self.items, front);
        self.items.push(Item::Loop(Nest {
            number,
            m1,
            m2,
            step,
            items,
            line,
        }))?;
        Ok(())
    }
}

/// Whether the innermost of these loops ends with this label.
fn ends_first(label: u32, begun: &[Begun]) -> bool
    ensures { result ≡ spec.ends_first label (map spec.begun_of begun.now) }
{
    match begun {
        [first, ..] => first.label == u64::from(label),
        [] => false,
    }
}

/// The value of a step, 1 where it is left out.
fn step_value(alloc: Global, known: &Known, step: &Option<Expression>) -> Result<i64, AllocError>
    ensures { IfOk result (λ z. z ≡ trees.step_value known.now (forms.optional_of step.now)) }
{
    match step {
        Some(e) => value_of(alloc, known, e),
        None => Ok(1),
    }
}
