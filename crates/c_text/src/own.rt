// A processor's own trips of a loop.

use crate::text::{Text, layout_of, spot_of};
use c_expressions::{Sum, Term};
use c_owners::{Given, Own};
use c_statements::{Body, put_begun, put_ended, put_loop_head, put_stepped};
use nest_tree::Nest;
use owner_partition::Anchor;
use std::alloc::AllocError;
use std::fmt::Write;
use thread_code::{OwnTrips, Place, Trips, Turning};

// A block anchor's form, without the loop, its coefficient of the loop, and how many places a block
// has.
#[derive(Clone, Copy)]
struct Block<'a> {
    length: u32,
    rest: &'a Place,
    rise: i64,
}

// Places in turn: that of the first trip, and what is known of the turns.
#[derive(Clone, Copy)]
struct Turn<'a> {
    from: &'a Sum,
    turning: Turning,
}

impl Text<'_> {
    /// A processor's own trips of a loop, so deep, with what it does behind them.
    pub(crate) fn own_trips(&mut self, it: &OwnTrips, depth: u32) -> Result<(), AllocError> {
        let layout = layout_of(self.alloc, self.program, self.plan);
        if let Trips::All(anchor) = &it.trips {
            if it.privates.is_empty() && it.sums.is_empty() {
                return self.all_trips(it, anchor, depth);
            }
        }
        self.line(depth, "{")?;
        let depth = depth.saturating_add(1);
        let own = Own {
            privates: it.privates.as_slice(),
            sums: it.sums.as_slice(),
        };
        layout.put_cells(&mut self.out, &own, depth)?;
        match &it.trips {
            Trips::All(anchor) => self.all_trips(it, anchor, depth)?,
            Trips::Block(length, rest, rise) => {
                let block = Block {
                    length: *length,
                    rest,
                    rise: *rise,
                };
                self.block_trips(it, block, depth)?;
            }
            Trips::Turn(start, turning) => {
                let from = layout.sum_alike(&spot_of(start))?;
                let turn = Turn {
                    from: &from,
                    turning: *turning,
                };
                self.turn_trips(it, turn, depth)?;
            }
        }
        let given = Given {
            anchor: &it.anchor,
            nest: it.nest,
            privates: own.privates,
        };
        layout.put_privates(&mut self.out, &given, depth)?;
        layout.put_totals(&mut self.out, own.sums, depth)?;
        self.line(depth.saturating_sub(1), "}")
    }

    // All trips, where the anchor names the processor.
    fn all_trips(&mut self, it: &OwnTrips, anchor: &Anchor, depth: u32) -> Result<(), AllocError> {
        let layout = layout_of(self.alloc, self.program, self.plan);
        self.owned(anchor, depth)?;
        let inner = depth.saturating_add(1);
        put_loop_head(&layout.scope(&[]), &mut self.out, it.nest, inner)?;
        self.body(it, inner)?;
        self.line(depth, "}")
    }

    // What a loop does in a trip, and its end.
    fn body(&mut self, it: &OwnTrips, depth: u32) -> Result<(), AllocError> {
        let layout = layout_of(self.alloc, self.program, self.plan);
        let body = Body {
            scope: layout.scope(it.privates.as_slice()),
            sums: it.sums.as_slice(),
        };
        body.put_statements(&mut self.out, &it.nest.items, depth.saturating_add(1))?;
        self.line(depth, "}")
    }

    // The trips in a processor's block.
    fn block_trips(&mut self, it: &OwnTrips, block: Block, depth: u32) -> Result<(), AllocError> {
        let layout = layout_of(self.alloc, self.program, self.plan);
        if layout.sum_of(&spot_of(block.rest))?.is_plain() {
            return self.trips_between(it, block, depth);
        }
        // where the loop has no trip, nothing is known of the rest
        self.begin(depth)?;
        self.words("if (")?;
        layout.put_has_trips(&mut self.out, it.nest)?;
        self.words(") {\n")?;
        self.trips_between(it, block, depth.saturating_add(1))?;
        self.line(depth, "}")
    }

    fn trips_between(&mut self, it: &OwnTrips, block: Block, depth: u32) -> Result<(), AllocError> {
        self.begin(depth)?;
        self.words("const number lo = ")?;
        self.block_end(block, block.rise < 0, "raised(")?;
        self.words(", hi = ")?;
        self.block_end(block, block.rise > 0, "floored(")?;
        self.words(";\n")?;
        self.begin(depth)?;
        self.words("const number first = ")?;
        self.first_between(it.nest)?;
        self.words(if it.nest.step < 0 {
            ", last = larger("
        } else {
            ", last = smaller("
        })?;
        self.form(&it.nest.m2)?;
        self.words(if it.nest.step < 0 {
            ", lo);\n"
        } else {
            ", hi);\n"
        })?;
        self.begin(depth)?;
        put_begun(&mut self.out, it.nest.number)?;
        self.words("first")?;
        put_ended(&mut self.out, it.nest.number, it.nest.step)?;
        self.words("last")?;
        put_stepped(&mut self.out, it.nest.number, it.nest.step)?;
        self.body(it, depth)
    }

    // The value of the loop at the lower or the upper end of a processor's block.
    fn block_end(&mut self, block: Block, upper: bool, word: &str) -> Result<(), AllocError> {
        let length = i64::from(block.length);
        let sign: i64 = if block.rise < 0 { -1 } else { 1 };
        let mut end = Sum::new(self.alloc);
        end.add_term(Term::Processor, length, sign)?;
        if upper {
            end.add(length.saturating_sub(1), sign);
        }
        let layout = layout_of(self.alloc, self.program, self.plan);
        layout.add_spot(&spot_of(block.rest), sign.wrapping_neg(), &mut end)?;
        let size = block.rise.unsigned_abs();
        if size == 1 {
            return self.sum(&end);
        }
        self.words(word)?;
        self.sum(&end)?;
        write!(self.out, ", {size})")
    }

    // The first value of a loop from the lower end on, or from the upper one downwards.
    fn first_between(&mut self, nest: &Nest) -> Result<(), AllocError> {
        match nest.step {
            1 => {
                self.words("larger(")?;
                self.form(&nest.m1)?;
                self.words(", lo)")
            }
            -1 => {
                self.words("smaller(")?;
                self.form(&nest.m1)?;
                self.words(", hi)")
            }
            _ => self.first_by_steps(nest),
        }
    }

    fn first_by_steps(&mut self, nest: &Nest) -> Result<(), AllocError> {
        let size = nest.step.unsigned_abs();
        self.form(&nest.m1)?;
        if nest.step > 0 {
            write!(self.out, " + {size}*larger(0, raised(lo - (")?;
            self.form(&nest.m1)?;
            write!(self.out, "), {size}))")
        } else {
            write!(self.out, " - {size}*larger(0, raised(")?;
            self.form(&nest.m1)?;
            write!(self.out, " - hi, {size}))")
        }
    }

    // The trips of a processor in turn.
    fn turn_trips(&mut self, it: &OwnTrips, turn: Turn, depth: u32) -> Result<(), AllocError> {
        let divisor = turn.turning.divisor;
        if divisor == 1 {
            return self.trips_in_turn(it, turn, depth);
        }
        self.begin(depth)?;
        self.words("const number y = ")?;
        self.distance(turn.from)?;
        self.words(";\n")?;
        self.begin(depth)?;
        write!(self.out, "if (y % {divisor} == 0) {{\n")?;
        self.trips_in_turn(it, turn, depth.saturating_add(1))?;
        self.line(depth, "}")
    }

    // How far in turn it is from a place to the processor's.
    fn distance(&mut self, from: &Sum) -> Result<(), AllocError> {
        self.words("modulo(p - (")?;
        self.sum(from)?;
        self.words("), P)")
    }

    fn trips_in_turn(&mut self, it: &OwnTrips, turn: Turn, depth: u32) -> Result<(), AllocError> {
        let nest = it.nest;
        let stride = turn.turning.stride;
        if stride != 1 {
            self.begin(depth)?;
            self.words("const number first = ")?;
            self.first_in_turn(nest, turn)?;
            self.words(";\n")?;
        }
        self.begin(depth)?;
        put_begun(&mut self.out, nest.number)?;
        if stride == 1 {
            self.form(&nest.m1)?;
        } else {
            self.words("first")?;
        }
        put_ended(&mut self.out, nest.number, nest.step)?;
        self.form(&nest.m2)?;
        let by = nest.step.saturating_mul(i64::from(stride));
        put_stepped(&mut self.out, nest.number, by)?;
        self.body(it, depth)
    }

    // The value of the loop in the processor's first trip.
    fn first_in_turn(&mut self, nest: &Nest, turn: Turn) -> Result<(), AllocError> {
        self.form(&nest.m1)?;
        self.words(if nest.step < 0 { " - " } else { " + " })?;
        let size = nest.step.unsigned_abs();
        if size != 1 {
            write!(self.out, "{size}*")?;
        }
        self.first_number(turn)
    }

    // The number of a processor's first trip, from 0.
    fn first_number(&mut self, turn: Turn) -> Result<(), AllocError> {
        let Turning {
            divisor,
            factor,
            stride,
        } = turn.turning;
        if divisor == 1 && factor == 1 {
            return self.distance(turn.from);
        }
        self.words("(")?;
        if divisor == 1 {
            self.distance(turn.from)?;
        } else {
            write!(self.out, "y / {divisor}")?;
        }
        if factor != 1 {
            write!(self.out, " * {factor} % {stride}")?;
        }
        self.words(")")
    }
}
