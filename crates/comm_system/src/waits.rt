// What the second instance of a slot waits for.

ghost use Rattle.std.specs.Prelude.{◌<◌, ◌≤◌, ◌^◌, length};

use conflict_rules::producer::Producer;

/// How often the neighbours to the left and to the right are waited for, and the last three
/// producers.
#[derive(Drop)]
pub struct Waits<'p> {
    pub left: u32,
    pub right: u32,
    pub producers: Vec<Producer<'p>>,
    ghost left_few: { left < 2 ^ 30 },
    ghost right_few: { right < 2 ^ 30 },
    ghost three: { length producers.items ≤ 3 },
}
