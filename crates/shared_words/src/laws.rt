// What each step does to the words and to the seats: there is nothing to call.

ghost use Rattle.nest_tree.specs.Tree.{Tree};
ghost use Rattle.sync_plan.specs.declared.plan.Plan.{Plan};
ghost use Rattle.spmd_model.specs.declared.style.Style.{Style};
ghost use Rattle.shared_words.specs.Runs.{AreAddsSteps, AreArrivalsSteps, AreLoadsSteps, ArePollsSteps, ArePostsSteps, AreRowsSteps, AreStoresSteps, IsRunnable};
ghost use Rattle.shared_words.specs.Steps.{AddSteps, Always, AreClose, ArriveSteps, GatherSteps, LoadSteps, MissSteps, Opens, PollSteps, PostSteps, SpareSteps, SplitSteps, StoreSteps, TakeSteps};
ghost use Rattle.shared_words.specs.Rounds.{LeaveLess};
ghost use Rattle.shared_words.specs.Vain.{IsWithin, PollsInVain, RowsInVain};

use spmd_model::{laws_in_styles, rounds_go_on, shared_cells_in_styles, timelines_in_styles};

/// Words and seats that show a state of a machine of which the laws hold, in either style of
/// barriers, show one behind each kind of step, in which the seat's processor has done its next act
/// and those behind it that no other processor sees; a poll that found too little is none of its
/// acts. At first nothing is done.
pub fn steps_show_the_machine()
    ensures first { Always Opens }
    ensures load { Always LoadSteps }
    ensures store { Always StoreSteps }
    ensures add { Always AddSteps }
    ensures post { Always PostSteps }
    ensures poll { Always PollSteps }
    ensures miss { Always MissSteps }
    ensures arrive { Always ArriveSteps }
    ensures gather { Always GatherSteps }
    ensures split { Always SplitSteps }
    ensures take_in { Always TakeSteps }
    ensures spare { Always SpareSteps }
    ensures apart { Always AreClose }
{}

/// A poll that finds too little was in vain at all places that the processors had come to before:
/// not all that its processor awaits there was posted by then. And a place behind acts that no other
/// processor sees is within the acts.
pub fn misses_are_in_vain()
    ensures poll { Always PollsInVain }
    ensures row { Always RowsInVain }
    ensures within { Always IsWithin }
{}

/// Rounds lead to the end: behind a leg of each worker less is left, in acts and in workers that
/// have still to end, where one hasn't ended and who doesn't go on is in vain at the places where the
/// legs began.
pub fn rounds_leave_less()
    ensures { (style : Style) (tree : Tree) (plan : Plan) → IsRunnable tree plan
        → LeaveLess style tree plan }
{
    rounds_go_on();
    timelines_in_styles();
}

/// Each kind of step is steps of the machine in its style: of whatever state the words show, the
/// words behind the step show the state behind the seat's processor's next act, or behind all its
/// awaits at the barrier, and the acts behind those that no other processor sees.
pub fn steps_are_the_machines()
    ensures load { (style : Style) (tree : Tree) (plan : Plan) → IsRunnable tree plan
        → AreLoadsSteps style tree plan }
    ensures store { (style : Style) (tree : Tree) (plan : Plan) → IsRunnable tree plan
        → AreStoresSteps style tree plan }
    ensures add { (style : Style) (tree : Tree) (plan : Plan) → IsRunnable tree plan
        → AreAddsSteps style tree plan }
    ensures post { (style : Style) (tree : Tree) (plan : Plan) → IsRunnable tree plan
        → ArePostsSteps style tree plan }
    ensures poll { (style : Style) (tree : Tree) (plan : Plan) → IsRunnable tree plan
        → ArePollsSteps style tree plan }
    ensures arrive { (style : Style) (tree : Tree) (plan : Plan) → IsRunnable tree plan
        → AreArrivalsSteps style tree plan }
    ensures gather { (style : Style) (tree : Tree) (plan : Plan) → IsRunnable tree plan
        → AreRowsSteps style tree plan }
{
    laws_in_styles();
    shared_cells_in_styles();
}
