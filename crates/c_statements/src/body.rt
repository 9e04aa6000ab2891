// Statements inside a phase.

ghost use Rattle.std.specs.Prelude.{◌≡◌, ◌++◌, OnOk, codes, string_bytes};
ghost use Rattle.nest_tree.specs.View.{expression_of, loop_of, statement_of, statements_from, tree_of};
ghost use Rattle.c_statements.specs.Layout.{additions_text, assigned_text, changed_text, guard_text, is_summed, statement_text, statements_text, stored_text, summed_text};
ghost use Rattle.c_statements.specs.Pieces.{flag_cell, total_cell};
ghost use Rattle.c_statements.specs.Texts.{Written, code};

use crate::lines::{put_code, put_indent, put_line};
use crate::loops::put_loop_head;
use c_expressions::{Place, Scope, put_text};
use nest_tree::{Access, Expr, Guard, Item, Nest};
use own_scalars::adds_once;
use std::alloc::AllocError;

/// Where statements are written: what names stand for, and the scalars of which a processor sums up
/// what is assigned, by their numbers from 1.
#[derive(Clone, Copy)]
pub struct Body<'a> {
    pub scope: Scope<'a>,
    pub sums: &'a [u32],
}

impl Body<'_> {
    /// Appends statements inside a phase, so deep.
    #[cycle(statements)]
    pub fn put_statements(
        &self,
        out: &mut String,
        items: &[Item],
        depth: u32,
    ) -> Result<(), AllocError>
        ensures { OnOk result (Written (statements_text (tree_of self.now.scope.program.now)
            self.now.scope.privates.now self.now.sums.now (statements_from items.now)) (string_bytes
            out.old) (string_bytes out.new)) }
    {
        for item in items {
            self.put_statement(out, item, depth)?;
        }
        Ok(())
    }

    /// Appends a statement inside a phase, so deep.
    #[cycle(statements)]
    pub fn put_statement(&self, out: &mut String, item: &Item, depth: u32) -> Result<(), AllocError>
        ensures { OnOk result (Written (statement_text (tree_of self.now.scope.program.now)
            self.now.scope.privates.now self.now.sums.now (statement_of item.now)) (string_bytes
            out.old) (string_bytes out.new)) }
    {
        match item {
            Item::Loop(nest) => self.put_loop(out, nest, depth),
            Item::Assign(target, value, guard, _) => {
                put_indent(out, depth)?;
                self.put_guard(out, guard)?;
                self.put_assigned(out, target, value)
            }
            Item::Print(items, _) => self.put_print(out, items, depth),
            Item::Continue(_) => Ok(()),
        }
    }

    // Appends a loop inside a phase, so deep.
    #[cycle(statements)]
    fn put_loop(&self, out: &mut String, nest: &Nest, depth: u32) -> Result<(), AllocError>
        ensures { OnOk result (Written (statement_text (tree_of self.now.scope.program.now)
            self.now.scope.privates.now self.now.sums.now (loop_of nest.now)) (string_bytes out.old)
            (string_bytes out.new)) }
    {
        put_loop_head(&self.scope, out, nest, depth)?;
        self.put_statements(out, &nest.items, depth.saturating_add(1))?;
        put_line(out, depth, "}")
    }

    // Appends a comparison, if there is one, in front of what it guards.
    fn put_guard(&self, out: &mut String, guard: &Option<Guard>) -> Result<(), AllocError>
        ensures { OnOk result (Written (guard_text (tree_of self.now.scope.program.now) guard.now)
            (string_bytes out.old) (string_bytes out.new)) }
    {
        let Some(guard) = guard else {
            return Ok(());
        };
        put_code(out, "if (")?;
        self.scope.put_comparison(out, guard)?;
        put_code(out, ") ")
    }

    // Appends an assignment behind its comparison.
    fn put_assigned(
        &self,
        out: &mut String,
        target: &Access,
        value: &Expr,
    ) -> Result<(), AllocError>
        ensures { OnOk result (Written (assigned_text (tree_of self.now.scope.program.now)
            self.now.scope.privates.now self.now.sums.now target.now (expression_of value.now))
            (string_bytes out.old) (string_bytes out.new)) }
    {
        if self.is_summed(target) {
            self.put_summed(out, target.variable, value)
        } else {
            self.put_stored(out, target, value)
        }
    }

    // Appends an assignment to a scalar that is summed up.
    fn put_summed(&self, out: &mut String, variable: u32, value: &Expr) -> Result<(), AllocError>
        ensures { OnOk result (Written (summed_text (tree_of self.now.scope.program.now)
            self.now.scope.privates.now variable (expression_of value.now)) (string_bytes out.old)
            (string_bytes out.new)) }
    {
        put_code(out, "{ ")?;
        self.put_additions(out, variable, value)?;
        self.put_flag(out, variable)
    }

    // Appends any other assignment.
    fn put_stored(&self, out: &mut String, target: &Access, value: &Expr) -> Result<(), AllocError>
        ensures { OnOk result (Written (stored_text (tree_of self.now.scope.program.now)
            self.now.scope.privates.now target.now (expression_of value.now)) (string_bytes out.old)
            (string_bytes out.new)) }
    {
        self.scope.put_access(out, target)?;
        put_code(out, " = ")?;
        self.scope.put_value(out, value, Place::Sum)?;
        put_code(out, ";\n")
    }

    // Whether a scalar is assigned that is summed up.
    fn is_summed(&self, target: &Access) -> bool
        ensures { result ≡ is_summed self.now.sums.now target.now }
    {
        target.subscripts.as_slice().is_empty() && self.sums.contains(&target.variable)
    }

    // Appends what an assignment adds to a scalar that is summed up, and what it subtracts.
    fn put_additions(&self, out: &mut String, variable: u32, value: &Expr) -> Result<(), AllocError>
        ensures { OnOk result (Written (additions_text (tree_of self.now.scope.program.now)
            self.now.scope.privates.now variable (expression_of value.now)) (string_bytes out.old)
            (string_bytes out.new)) }
    {
        match value {
            Expr::Add(left, right) => {
                if adds_once(left, variable) {
                    self.put_additions(out, variable, left)?;
                    self.put_term(out, variable, " += ", right)
                } else {
                    self.put_additions(out, variable, right)?;
                    self.put_term(out, variable, " += ", left)
                }
            }
            Expr::Sub(left, right) => {
                self.put_additions(out, variable, left)?;
                self.put_term(out, variable, " -= ", right)
            }
            _ => Ok(()),
        }
    }

    // Appends one of them.
    fn put_term(
        &self,
        out: &mut String,
        variable: u32,
        sign: &str,
        value: &Expr,
    ) -> Result<(), AllocError>
        ensures { OnOk result (Written (changed_text (tree_of self.now.scope.program.now)
            self.now.scope.privates.now variable sign.now (expression_of value.now)) (string_bytes
            out.old) (string_bytes out.new)) }
    {
        self.put_total(out, variable, sign)?;
        self.scope.put_value(out, value, Place::Sum)?;
        put_code(out, "; ")
    }

    fn put_total(&self, out: &mut String, variable: u32, sign: &str) -> Result<(), AllocError>
        ensures { OnOk result (Written (code (total_cell (tree_of self.now.scope.program.now)
            variable ++ sign.now)) (string_bytes out.old) (string_bytes out.new)) }
    {
        self.scope.put_name(out, "s_", variable)?;
        put_text(out, sign)
    }

    fn put_flag(&self, out: &mut String, variable: u32) -> Result<(), AllocError>
        ensures { OnOk result (Written (code (flag_cell (tree_of self.now.scope.program.now)
            variable ++ codes " = 1; }\n"))
            (string_bytes out.old) (string_bytes out.new)) }
    {
        self.scope.put_name(out, "a_", variable)?;
        put_text(out, " = 1; }\n")
    }
}
