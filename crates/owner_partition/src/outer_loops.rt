// The Outer loops round a static phase.

ghost use Rattle.std.specs.Prelude.{◌≡◌, ◌<◌, ◌≤◌, ◌++◌, ◌∷◌, [], length};

use nest_rows::Around;
use nest_tree::Nest;
use nest_walk::MOST_LOOPS;

// Six loops.
#[derive(Clone, Copy)]
struct Six<'a> {
    items: [Around<'a>; MOST_LOOPS],
}

/// The Outer loops round a static phase, from the outermost: at most six. They take no memory.
#[derive(Clone, Copy)]
pub struct OuterLoops<'a> {
    // How many there are; those of the six behind them mean nothing.
    depth: usize,
    six: Option<Six<'a>>,
    ghost within: { depth ≤ 6 },
}

impl<'a> OuterLoops<'a> {
    ghost use Rattle.owner_partition.specs.StaticPhases.{loops_of};

    /// None.
    pub fn new() -> Self
        ensures { loops_of result ≡ [] }
    {
        OuterLoops {
            depth: 0,
            six: None,
        }
    }

    /// The loops, in order.
    pub fn as_slice(&self) -> &[Around<'a>]
        ensures { result.now ≡ loops_of self.now }
    {
        match &self.six {
            Some(six) => &six.items[..self.depth],
            None => &[],
        }
    }

    /// One more inside them.
    pub fn with_inner(self, nest: &'a Nest) -> Self
        requires { length (loops_of self) < 6 }
        ensures { loops_of result ≡ loops_of self.entry ++ record { nest = nest.entry } ∷ [] }
    {
        let outer = self.as_slice();
        let mut items = [Around { nest }; MOST_LOOPS];
        items[..outer.len()].copy_from_slice(outer);
        OuterLoops {
            depth: outer.len() + 1,
            six: Some(Six { items }),
        }
    }
}
