// The owners that anchors name.

ghost use Rattle.std.specs.Prelude.{◌≡◌, ◌≢◌, pos, OnOk, string_bytes};
ghost use Rattle.std.specs.Int.{int_div_euclid};
ghost use Rattle.std.specs.List.{All};
ghost use Rattle.nest_tree.specs.View.{tree_of};
ghost use Rattle.owner_partition.specs.declared.anchor.Dist.TheVariants.{Block, Cyclic};
ghost use Rattle.c_expressions.specs.Sums.{IsPlain, SumsUp};
ghost use Rattle.c_statements.specs.Texts.{Written};
ghost use Rattle.c_owners.specs.Owners.{OwnerText, SpotOwner, SumsUpAlike, spot_at};

use crate::layout::Layout;
use crate::places::Spot;
use c_expressions::{Sum, put_literal, put_natural, put_sum, put_text};
use owner_partition::{Anchor, Dist};
use std::alloc::AllocError;

impl Layout<'_> {
    /// Appends the owner that an anchor names: in the last trip of a loop, if one is given.
    pub fn put_owner(
        &self,
        out: &mut String,
        anchor: &Anchor,
        last: Option<u32>,
    ) -> Result<(), AllocError>
        ensures { OnOk result (Written (OwnerText (tree_of self.now.program.now) self.now.workers
            anchor.now last) (string_bytes out.old) (string_bytes out.new)) }
    {
        let spot = Spot::of_form(&anchor.form, last);
        match anchor.dist {
            Dist::Block(length) => self.put_in_block(out, &spot, length),
            Dist::Cyclic => self.put_in_turn(out, &spot),
        }
    }

    fn put_in_block(&self, out: &mut String, spot: &Spot, length: u32) -> Result<(), AllocError>
        ensures { OnOk result (Written (SpotOwner self.now.workers (Block length) (spot_at (tree_of
            self.now.program.now) spot.now.constant spot.now.loops.now spot.now.params.now
            spot.now.last)) (string_bytes out.old) (string_bytes out.new)) }
    {
        let place = self.sum_of(spot)?;
        if length != 0 && place.is_constant() && place.is_plain() {
            self.put_block_number(out, &place, spot, length)
        } else {
            self.put_floored(out, &place, spot, length)
        }
    }

    fn put_in_turn(&self, out: &mut String, spot: &Spot) -> Result<(), AllocError>
        ensures { OnOk result (Written (SpotOwner self.now.workers Cyclic (spot_at (tree_of
            self.now.program.now) spot.now.constant spot.now.loops.now spot.now.params.now
            spot.now.last)) (string_bytes out.old) (string_bytes out.new)) }
    {
        let place = self.sum_alike(spot)?;
        if place.is_constant() && place.is_plain() {
            self.put_turn_number(out, &place, spot)
        } else {
            self.put_modulo(out, &place, spot)
        }
    }

    // Appends the owner of a place in blocks that has nothing left to compute: the spot's.
    fn put_block_number(
        &self,
        out: &mut String,
        place: &Sum,
        spot: &Spot,
        length: u32,
    ) -> Result<(), AllocError>
        requires some { length ≢ 0 }
        requires plain { IsPlain place.now }
        requires constant { All (λ t. t.1 ≡ pos 0) place.now.terms.items }
        requires sum { SumsUp place.now (spot_at (tree_of self.now.program.now) spot.now.constant
            spot.now.loops.now spot.now.params.now spot.now.last) }
        ensures { OnOk result (Written (SpotOwner self.now.workers (Block length) (spot_at (tree_of
            self.now.program.now) spot.now.constant spot.now.loops.now spot.now.params.now
            spot.now.last)) (string_bytes out.old) (string_bytes out.new)) }
    {
        put_literal(out, block_number(place.constant(), length))
    }

    // Appends the owner of a place in blocks.
    fn put_floored(
        &self,
        out: &mut String,
        place: &Sum,
        spot: &Spot,
        length: u32,
    ) -> Result<(), AllocError>
        requires { SumsUp place.now (spot_at (tree_of self.now.program.now) spot.now.constant
            spot.now.loops.now spot.now.params.now spot.now.last) }
        ensures { OnOk result (Written (SpotOwner self.now.workers (Block length) (spot_at (tree_of
            self.now.program.now) spot.now.constant spot.now.loops.now spot.now.params.now
            spot.now.last)) (string_bytes out.old) (string_bytes out.new)) }
    {
        put_text(out, "floored(")?;
        put_sum(out, place)?;
        put_text(out, ", ")?;
        put_natural(out, u64::from(length))?;
        put_text(out, ")")
    }

    // Appends the owner of a place in turn that has nothing left to compute.
    fn put_turn_number(&self, out: &mut String, place: &Sum, spot: &Spot) -> Result<(), AllocError>
        requires plain { IsPlain place.now }
        requires constant { All (λ t. t.1 ≡ pos 0) place.now.terms.items }
        requires sum { SumsUpAlike self.now.workers place.now (spot_at (tree_of
            self.now.program.now) spot.now.constant spot.now.loops.now spot.now.params.now
            spot.now.last) }
        ensures { OnOk result (Written (SpotOwner self.now.workers Cyclic (spot_at (tree_of
            self.now.program.now) spot.now.constant spot.now.loops.now spot.now.params.now
            spot.now.last)) (string_bytes out.old) (string_bytes out.new)) }
    {
        put_literal(out, self.residue(place.constant()))
    }

    // Appends the owner of a place in turn.
    fn put_modulo(&self, out: &mut String, place: &Sum, spot: &Spot) -> Result<(), AllocError>
        requires { SumsUpAlike self.now.workers place.now (spot_at (tree_of self.now.program.now)
            spot.now.constant spot.now.loops.now spot.now.params.now spot.now.last) }
        ensures { OnOk result (Written (SpotOwner self.now.workers Cyclic (spot_at (tree_of
            self.now.program.now) spot.now.constant spot.now.loops.now spot.now.params.now
            spot.now.last)) (string_bytes out.old) (string_bytes out.new)) }
    {
        put_text(out, "modulo(")?;
        put_sum(out, place)?;
        put_text(out, ", P)")
    }
}

// The number of a place's block.
fn block_number(place: i64, length: u32) -> i64
    requires { length ≢ 0 }
    ensures { result ≡ int_div_euclid place (pos length) }
{
    place.div_euclid(i64::from(length))
}
