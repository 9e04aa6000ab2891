// What the seats of a table know: values that stand in proofs alone.

use crate::Role;
use nest_tree::Program;
use spmd_model::Style;
use std::collections::LinkedList;
use sync_plan::Plan;

/// What a seat knows: of which program, plan and style it is, places that all processors have come
/// to, by processor, and whose it is. A seat that was joined to another knows nothing.
pub enum View {
    Seated(Program, Plan, Style, LinkedList<u64>, Role),
    Away,
}

/// The program, the plan and the style for which a table is made.
#[derive(Drop)]
pub struct Given<'a> {
    pub program: &'a Program,
    pub plan: &'a Plan,
    pub style: Style,
}
