// A processor's own cells, in front of its trips and behind them.

ghost use Rattle.std.specs.Prelude.{◌≡◌, ◌++◌, OnOk, codes, string_bytes};
ghost use Rattle.std.specs.Fmt.{signed_decimal};
ghost use Rattle.nest_tree.specs.View.{head_of, tree_of};
ghost use Rattle.c_expressions.specs.Names.{variable_name};
ghost use Rattle.c_statements.specs.Texts.{Written, code, each_of, wanted};
ghost use Rattle.c_owners.specs.Closings.{cells_text, follows_loop, given_line, given_lines, given_text, has_trips_text, last_by_steps, last_line, last_trip_text, own_begins, privates_text, rise_in, total_begins, total_text};

use crate::layout::Layout;
use c_expressions::{put_number, put_text};
use c_statements::{put_code, put_compared, put_indent};
use nest_tree::Nest;
use owner_partition::{Anchor, Dist};
use std::alloc::AllocError;

/// Scalars of which a processor has cells of its own in a loop.
#[derive(Clone, Copy)]
pub struct Own<'a> {
    pub privates: &'a [u32],
    pub sums: &'a [u32],
}

/// What a loop's private scalars are given by.
#[derive(Clone, Copy)]
pub struct Given<'a> {
    pub anchor: &'a Anchor,
    pub nest: &'a Nest,
    pub privates: &'a [u32],
}

impl Layout<'_> {
    /// Appends the cells of a processor's own.
    pub fn put_cells(&self, out: &mut String, own: &Own, depth: u32) -> Result<(), AllocError>
        ensures { OnOk result (Written (cells_text (tree_of self.now.program.now)
            own.now.privates.now own.now.sums.now) (string_bytes out.old) (string_bytes out.new)) }
    {
        self.put_totals_begin(out, own.sums, depth)?;
        self.put_own_begin(out, own.privates, depth)
    }

    fn put_totals_begin(&self, out: &mut String, sums: &[u32], depth: u32) -> Result<(), AllocError>
        ensures { OnOk result (Written (each_of (total_begins (tree_of self.now.program.now))
            sums.now) (string_bytes out.old) (string_bytes out.new)) }
    {
        for &variable in sums {
            self.put_total_begins(out, variable, depth)?;
        }
        Ok(())
    }

    fn put_total_begins(
        &self,
        out: &mut String,
        variable: u32,
        depth: u32,
    ) -> Result<(), AllocError>
        ensures { OnOk result (Written (total_begins (tree_of self.now.program.now) variable)
            (string_bytes out.old) (string_bytes out.new)) }
    {
        put_indent(out, depth)?;
        self.put_named(out, "word s_", variable, " = 0; int ")?;
        self.put_named(out, "a_", variable, " = 0;\n")
    }

    fn put_own_begin(
        &self,
        out: &mut String,
        privates: &[u32],
        depth: u32,
    ) -> Result<(), AllocError>
        ensures { OnOk result (Written (each_of (own_begins (tree_of self.now.program.now))
            privates.now) (string_bytes out.old) (string_bytes out.new)) }
    {
        for &variable in privates {
            self.put_own_begins(out, variable, depth)?;
        }
        Ok(())
    }

    fn put_own_begins(&self, out: &mut String, variable: u32, depth: u32) -> Result<(), AllocError>
        ensures { OnOk result (Written (own_begins (tree_of self.now.program.now) variable)
            (string_bytes out.old) (string_bytes out.new)) }
    {
        put_indent(out, depth)?;
        self.put_named(out, "word o_", variable, " = 0;\n")
    }

    /// Appends what the owner of the last trip gives: its private scalars, to all.
    pub fn put_privates(
        &self,
        out: &mut String,
        given: &Given,
        depth: u32,
    ) -> Result<(), AllocError>
        ensures { OnOk result (Written (privates_text (tree_of self.now.program.now)
            self.now.workers given.now.anchor.now (head_of given.now.nest.now)
            given.now.privates.now) (string_bytes out.old) (string_bytes out.new)) }
    {
        if given.privates.is_empty() {
            Ok(())
        } else {
            self.put_given_lines(out, given, depth)
        }
    }

    fn put_given_lines(&self, out: &mut String, given: &Given, depth: u32) -> Result<(), AllocError>
        ensures { OnOk result (Written (given_lines (tree_of self.now.program.now) self.now.workers
            given.now.anchor.now (head_of given.now.nest.now) given.now.privates.now) (string_bytes
            out.old) (string_bytes out.new)) }
    {
        self.put_last_line(out, given, depth)?;
        self.put_given(out, given, depth)
    }

    // Appends the value of a loop in its last trip, where its owner follows from that.
    fn put_last_line(&self, out: &mut String, given: &Given, depth: u32) -> Result<(), AllocError>
        ensures { OnOk result (Written (wanted (follows_loop self.now.workers given.now.anchor.now
            given.now.nest.now.number) (last_line (tree_of self.now.program.now) (head_of
            given.now.nest.now))) (string_bytes out.old) (string_bytes out.new)) }
    {
        if self.follows_loop(given.anchor, given.nest.number) {
            self.put_z(out, given.nest, depth)
        } else {
            Ok(())
        }
    }

    fn put_z(&self, out: &mut String, nest: &Nest, depth: u32) -> Result<(), AllocError>
        ensures { OnOk result (Written (last_line (tree_of self.now.program.now) (head_of nest.now))
            (string_bytes out.old) (string_bytes out.new)) }
    {
        put_indent(out, depth)?;
        put_code(out, "const number z = ")?;
        self.put_last_trip(out, nest)?;
        put_code(out, ";\n")
    }

    // Whether an owner follows from a loop's value.
    fn follows_loop(&self, anchor: &Anchor, number: u32) -> bool
        ensures { result ≡ follows_loop self.now.workers anchor.now number }
    {
        self.rise_in(anchor.dist, anchor.coefficient(number)) != 0
    }

    fn rise_in(&self, dist: Dist, rise: i64) -> i64
        ensures { result ≡ rise_in self.now.workers dist rise }
    {
        match dist {
            Dist::Block(_) => rise,
            Dist::Cyclic => rise.rem_euclid(i64::from(self.workers)),
        }
    }

    // Appends the value of a loop in its last trip, where it has one.
    fn put_last_trip(&self, out: &mut String, nest: &Nest) -> Result<(), AllocError>
        ensures { OnOk result (Written (last_trip_text (tree_of self.now.program.now) (head_of
            nest.now)) (string_bytes out.old) (string_bytes out.new)) }
    {
        if nest.step.unsigned_abs() == 1 {
            self.scope(&[]).put_form(out, &nest.m2)
        } else {
            self.put_last_by_steps(out, nest)
        }
    }

    fn put_last_by_steps(&self, out: &mut String, nest: &Nest) -> Result<(), AllocError>
        ensures { OnOk result (Written (last_by_steps (tree_of self.now.program.now) (head_of
            nest.now)) (string_bytes out.old) (string_bytes out.new)) }
    {
        put_code(out, "last_trip(")?;
        self.scope(&[]).put_form(out, &nest.m1)?;
        put_code(out, ", ")?;
        self.scope(&[]).put_form(out, &nest.m2)?;
        put_step(out, nest.step)
    }

    /// Appends the question whether a loop has a trip.
    pub fn put_has_trips(&self, out: &mut String, nest: &Nest) -> Result<(), AllocError>
        ensures { OnOk result (Written (has_trips_text (tree_of self.now.program.now) (head_of
            nest.now)) (string_bytes out.old) (string_bytes out.new)) }
    {
        self.scope(&[]).put_form(out, &nest.m1)?;
        put_compared(out, nest.step)?;
        self.scope(&[]).put_form(out, &nest.m2)
    }

    fn put_given(&self, out: &mut String, given: &Given, depth: u32) -> Result<(), AllocError>
        ensures { OnOk result (Written (given_line (tree_of self.now.program.now) self.now.workers
            given.now.anchor.now (head_of given.now.nest.now) given.now.privates.now) (string_bytes
            out.old) (string_bytes out.new)) }
    {
        put_indent(out, depth)?;
        put_code(out, "if (")?;
        self.put_has_trips(out, given.nest)?;
        put_code(out, " && p == ")?;
        self.put_owner(out, given.anchor, Some(given.nest.number))?;
        put_code(out, ") { ")?;
        self.put_stores(out, given.privates)?;
        put_code(out, "} // the last trip is its own\n")
    }

    fn put_stores(&self, out: &mut String, privates: &[u32]) -> Result<(), AllocError>
        ensures { OnOk result (Written (each_of (given_text (tree_of self.now.program.now))
            privates.now) (string_bytes out.old) (string_bytes out.new)) }
    {
        for &variable in privates {
            self.put_store(out, variable)?;
        }
        Ok(())
    }

    fn put_store(&self, out: &mut String, variable: u32) -> Result<(), AllocError>
        ensures { OnOk result (Written (given_text (tree_of self.now.program.now) variable)
            (string_bytes out.old) (string_bytes out.new)) }
    {
        self.put_named(out, "v_", variable, " = ")?;
        self.put_named(out, "o_", variable, "; ")
    }

    /// Appends what a processor has summed up, added to what all share.
    pub fn put_totals(&self, out: &mut String, sums: &[u32], depth: u32) -> Result<(), AllocError>
        ensures { OnOk result (Written (each_of (total_text (tree_of self.now.program.now))
            sums.now) (string_bytes out.old) (string_bytes out.new)) }
    {
        for &variable in sums {
            self.put_total(out, variable, depth)?;
        }
        Ok(())
    }

    fn put_total(&self, out: &mut String, variable: u32, depth: u32) -> Result<(), AllocError>
        ensures { OnOk result (Written (total_text (tree_of self.now.program.now) variable)
            (string_bytes out.old) (string_bytes out.new)) }
    {
        put_indent(out, depth)?;
        self.put_named(out, "if (a_", variable, ") add(&")?;
        self.put_named(out, "v_", variable, ", ")?;
        self.put_named(out, "s_", variable, ");\n")
    }

    // Appends a variable's name between two texts.
    fn put_named(
        &self,
        out: &mut String,
        front: &str,
        variable: u32,
        behind: &str,
    ) -> Result<(), AllocError>
        ensures { OnOk result (Written (code (front.now ++ (variable_name (tree_of
            self.now.program.now) variable ++ behind.now))) (string_bytes out.old) (string_bytes
            out.new)) }
    {
        self.scope(&[]).put_name(out, front, variable)?;
        put_text(out, behind)
    }
}

fn put_step(out: &mut String, step: i64) -> Result<(), AllocError>
    ensures { OnOk result (string_bytes out.new ≡ string_bytes out.old ++ (codes ", " ++
        (signed_decimal step ++ codes ")"))) }
{
    put_text(out, ", ")?;
    put_number(out, step)?;
    put_text(out, ")")
}
