// What may stand behind the END line of a source.

ghost use Rattle.std.specs.Prelude.{◌≡◌};
ghost use Rattle.command_words.specs.Wanted.{wanted};
ghost use Rattle.spmd_answer.specs.Due.{behind_of, is_alone};

use command_words::{PlanChoice, Request};

/// What may stand behind the END line of a source.
#[derive(Clone, Copy, Debug, PartialEq, Eq)]
pub enum Behind {
    /// Comment lines alone.
    Comments,
    /// The text of a plan, or what is refused as one.
    PlanText,
    /// The same for a sweep, of which the first setting is.
    SweptPlan,
}

impl Behind {
    /// Whether only comment lines may.
    pub fn is_alone(self) -> bool
        ensures { result ≡ is_alone self }
    {
        match self {
            Behind::Comments => true,
            Behind::PlanText | Behind::SweptPlan => false,
        }
    }
}

/// What may stand behind the END line for a request.
pub fn behind_of(request: &Request) -> Behind
    ensures { result ≡ behind_of (wanted request.now) }
{
    match request {
        Request::Sequential(_) | Request::Plan(..) | Request::Bench(_) => Behind::Comments,
        Request::Verify(_) => Behind::PlanText,
        Request::Sweep(..) => Behind::SweptPlan,
        Request::Run(run, _) => match run.choice {
            PlanChoice::Made | PlanChoice::Barrier => Behind::Comments,
            PlanChoice::Given => Behind::PlanText,
        },
    }
}
