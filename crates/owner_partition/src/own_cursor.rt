// The instances of a phase that a processor owns, one by one.

ghost use Rattle.std.specs.Prelude.{◌≡◌, ◌<◌, ◌≤◌, ℕ, [], ◌∷◌, IsTrue, MatchOption, length};
ghost use Rattle.nest_tree.specs.Form.{reach_within};
ghost use Rattle.nest_tree.specs.Tree.{param_values};
ghost use Rattle.nest_tree.specs.View.{tree_of};
ghost use Rattle.nest_model.specs.Instances.{Instance as Executed};
ghost use Rattle.nest_model.specs.Visits.{Visit};
ghost use Rattle.owner_partition.specs.declared.anchor.Dist.TheVariants.{Block};
ghost use Rattle.owner_partition.specs.Marks.{enters_outer};
ghost use Rattle.owner_partition.specs.OwnInstances.{names_no_inner};
ghost use Rattle.owner_partition.specs.OwnLeft.{IsGivenAs, own_left, own_tree};
ghost use Rattle.owner_partition.specs.Owners.{own_instances};
ghost use Rattle.owner_partition.specs.PhasesLeft.{IsPhaseOf};

use crate::anchor::Anchor;
use crate::cut::Cut;
use crate::own::{OwnStops, restart_own};
use crate::phases::Phase;
use crate::site::site_of;
use nest_tree::Program;
use nest_walk::{MOST_LOOPS, Path, Stop};

/// One execution of an assignment or a PRINT: its number among those in the text, from 1, and the
/// values of the loops round it by depth from the outermost, with 0 in the places left over.
#[derive(Clone, Copy, Debug, PartialEq, Eq)]
pub struct Instance {
    pub statement: u32,
    pub loops: [i64; MOST_LOOPS],
}

/// The instances of a phase that a processor owns and that are left, in sequential order. It takes
/// no memory.
#[derive(Clone, Copy)]
pub struct OwnCursor<'a> {
    stops: OwnStops<'a>,
}

impl OwnCursor<'_> {
    /// The next instance, until there is none.
    pub fn next(&mut self) -> Option<Instance>
        ensures instance { MatchOption result (own_left self.old ≡ []) (λ i. (x : Executed)
            × (own_left self.old ≡ x ∷ own_left self.new) × IsGivenAs (own_tree self.new) x i) }
        ensures end { MatchOption result (own_left self.new ≡ []) (λ i. Unit) }
        ensures program { own_tree self.new ≡ own_tree self.old }
    {
        let stop = self.stops.next()?;
        Some(Instance {
            statement: stop.first,
            loops: *self.stops.path().values(),
        })
    }
}

/// The instances of a phase of the program under the cut that processor `p` of so many owns, in
/// sequential order, by the phase's anchor, whose form names no loop inside that of the phase. It
/// comes to no trip of another processor: a block's trips are found by division, those in turn by
/// one congruence. To make it, the text is gone down to the phase once.
pub fn own_iterations<'a>(
    program: &'a Program,
    cut: &Cut,
    anchor: &Anchor,
    phase: &Phase,
    p: u32,
    workers: u32,
) -> OwnCursor<'a>
    requires phase { (v : Visit)
        × IsPhaseOf (tree_of program.now) (enters_outer cut.now.marks) v phase.now }
    requires outside { (v : Visit)
        → IsPhaseOf (tree_of program.now) (enters_outer cut.now.marks) v phase.now
        → IsTrue (names_no_inner v.what anchor.now.form) }
    requires given { IsTrue
        (reach_within (length (tree_of program.now).params) anchor.now.form.params) }
    requires worker { p < workers }
    requires block { (length : ℕ) → anchor.now.dist ≡ Block length → 1 ≤ length }
    ensures own { (v : Visit)
        → IsPhaseOf (tree_of program.now) (enters_outer cut.now.marks) v phase.now
        → own_left result
        ≡ own_instances (param_values (tree_of program.now)) anchor.now workers p v }
    ensures program { own_tree result ≡ tree_of program.now }
{
    let mut path = Path::new();
    let mut stops = OwnStops::none(program);
    let site = site_of(program, cut, &phase.outer, phase.place, &mut path);
    let Some(site) = site else {
        return OwnCursor { stops };
    };
    let stop = Stop {
        item: site.item,
        place: phase.place,
        first: site.first,
    };
    restart_own(&mut stops, &path, stop, anchor, p, workers);
    OwnCursor { stops }
}
