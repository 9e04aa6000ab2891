// The values that a piece of work loads.

ghost use Rattle.std.specs.Prelude.{◌≡◌};
ghost use Rattle.instance_runs.specs.Loads.{width};

use nest_walk::LoadCells;

/// How many values a load gives.
pub fn width(load: &LoadCells) -> u32
    ensures { result ≡ width load.now }
{
    match load {
        LoadCells::Element(_) => 1,
        LoadCells::Array { count, .. } => *count,
    }
}
