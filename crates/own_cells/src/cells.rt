// The own scalars of a phase, by their cells.

ghost use Rattle.std.specs.Prelude.{◌≡◌, ◌==◌, ◌+◌, ◌≤◌, ◌<◌, ℕ, All, IfSome, length, nat_le};
ghost use Rattle.std.specs.List.{position};
ghost use Rattle.std.specs.Option.{option_map};
ghost use Rattle.own_scalars.specs.OwnScalars.{is_of};
ghost use Rattle.nest_tree.specs.View.{tree_of};
ghost use Rattle.own_cells.specs.OwnCells.{IsScalarNumber, cells_of};

use arrayvec::ArrayVec;
use nest_tree::{Access, Item, Nest, Program};
use own_scalars::{MOST_OWN, sum_scalars};
use owner_partition::Cut;

/// How many places own scalars have: private ones the first half, sum scalars the second.
pub const OWN_PLACES: usize = 2 * MOST_OWN;

/// Whether a place is that of a sum scalar.
pub fn is_sum_place(place: usize) -> bool
    ensures { result ≡ nat_le 16 place }
{
    MOST_OWN <= place
}

/// The own scalars of a phase, each in the order of their cells: private scalars, whose places are
/// 0 to 15, and sum scalars, whose places are 16 to 31.
#[derive(Drop)]
pub struct OwnCells {
    private_cells: ArrayVec<u32, MOST_OWN>,
    sums: ArrayVec<u32, MOST_OWN>,
    sum_cells: ArrayVec<u32, MOST_OWN>,
}

impl OwnCells {
    ghost use Rattle.std.specs.Prelude.{Some, [], true};
    ghost use Rattle.nest_tree.specs.Tree.{Tree};
    ghost use Rattle.nest_tree.specs.View.{statement_of};
    ghost use Rattle.nest_tree.specs.View.{loop_of};
    ghost use Rattle.sync_plan.specs.Own.{OwnLoop, own_loop, own_loop_of, own_of};
    ghost use Rattle.sync_plan.specs.declared.plan.Plan.{Plan};
    ghost use Rattle.own_cells.specs.OwnCells.{AreFew, AreOwnCells, assigned_place, shared_cell};

    /// No own scalar.
    pub fn none() -> Self
        ensures privates { result.private_cells.items ≡ [] }
        ensures sums { result.sums.items ≡ [] }
        ensures sum_cells { result.sum_cells.items ≡ [] }
    {
        OwnCells {
            private_cells: ArrayVec::new(),
            sums: ArrayVec::new(),
            sum_cells: ArrayVec::new(),
        }
    }

    /// Those of a phase that is this loop. It takes no memory, and goes through the body of a Sum loop
    /// once for each scalar.
    pub fn of_loop(program: &Program, cut: &Cut, nest: &Nest) -> Self
        requires few { AreFew (tree_of program.now) (own_loop_of cut.now (loop_of nest.now)) }
        ensures { AreOwnCells (tree_of program.now)
            (own_loop_of cut.now (loop_of nest.now)) result }
    {
        let mut own = OwnCells::none();
        own.private_cells = cells_of(program, cut.privates_of(nest.number));
        if cut.mark(nest.number).is_sum() {
            let Some(sums) = sum_scalars(nest) else {
                unreachable!()
            };
            own.sum_cells = cells_of(program, sums.as_slice());
            own.sums = sums;
        }
        own
    }

    /// Whether there is none.
    pub fn is_empty(&self) -> bool
        ensures { (tree : Tree) → (own : OwnLoop) → AreOwnCells tree own self.now → result ≡ true
            → (own.privates ≡ []) × (own.sums ≡ []) }
    {
        self.private_cells.is_empty() && self.sums.is_empty()
    }

    /// How many private scalars there are, which have the places from 0 on.
    pub fn privates(&self) -> usize
        ensures { result ≡ length self.now.private_cells.items }
    {
        self.private_cells.len()
    }

    /// The place of a cell that all share among those of the own scalars, if it is one's.
    pub fn place_of(&self, cell: u32) -> Option<usize>
        ensures { (tree : Tree) → (plan : Plan) → (place : ℕ)
            → AreOwnCells tree (own_loop tree plan place) self.now
            → result ≡ (own_of tree plan place).slot cell }
    {
        if let Some(place) = place_in(self.private_cells.as_slice(), cell) {
            return Some(place);
        }
        sum_place(place_in(self.sum_cells.as_slice(), cell))
    }

    /// The cell that all share of the own scalar with this place.
    pub fn cell(&self, place: usize) -> u32
        requires { (c : ℕ) × (shared_cell self.now place ≡ Some c) }
        ensures { shared_cell self.now place ≡ Some result }
    {
        if place < MOST_OWN {
            self.private_cells.as_slice()[place]
        } else {
            self.sum_cells.as_slice()[place - MOST_OWN]
        }
    }

    /// The place of the sum scalar that a statement assigns, if it assigns one.
    pub fn assigned_by(&self, item: &Item) -> Option<usize>
        ensures { result ≡ assigned_place self.now.sums.items (statement_of item.now) }
    {
        match item {
            Item::Assign(target, _, _, _) => sum_place(scalar_in(self.sums.as_slice(), target)),
            Item::Loop(_) => None,
            Item::Print(..) | Item::Continue(_) => None,
        }
    }
}

// The place of the sum scalar with this number among them, from 0.
fn sum_place(number: Option<usize>) -> Option<usize>
    requires { IfSome number (λ k. k < 16) }
    ensures { result ≡ option_map (λ k. 16 + k) number }
{
    match number {
        Some(number) => Some(MOST_OWN + number),
        None => None,
    }
}

// The place among these scalars of the one that an access is of.
fn scalar_in(scalars: &[u32], access: &Access) -> Option<usize>
    ensures place { result ≡ position (λ v. is_of v access.now) scalars.now }
    ensures within { IfSome result (λ k. k < length scalars.now) }
{
    let is_scalar = access.subscripts.as_slice().is_empty();
    scalars
        .iter()
        .position(|scalar| access.variable == *scalar && is_scalar)
}

// The place of a number among these.
fn place_in(numbers: &[u32], wanted: u32) -> Option<usize>
    ensures place { result ≡ position (λ n. n == wanted) numbers.now }
    ensures within { IfSome result (λ k. k < length numbers.now) }
{
    numbers.iter().position(|number| *number == wanted)
}

// The cells of some scalars.
fn cells_of(program: &Program, scalars: &[u32]) -> ArrayVec<u32, MOST_OWN>
    requires few { length scalars.now ≤ 16 }
    requires scalars { All (IsScalarNumber (tree_of program.now)) scalars.now }
    ensures { result.items ≡ cells_of (tree_of program.now) scalars.now }
{
    let mut cells = ArrayVec::new();
    for &scalar in scalars {
        cells.push(program.layout().first_cell(scalar));
    }
    cells
}
