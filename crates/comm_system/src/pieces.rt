// The pieces of a pair: on which sides of others the first owner lies.

ghost use Rattle.std.specs.Prelude.{◌≡◌, ◌++◌, ◌∷◌, IfOk, OnOk, map};
ghost use Rattle.comm_system.specs.declared.pieces.Direction.TheVariants.{Above, Below};
ghost use Rattle.comm_system.specs.OwnerRows.{choices as choices_of, pieces as pieces_of, sign_of};
ghost use Rattle.comm_system.specs.PieceViews.{direction_seen, piece_in, piece_seen, sides_seen};

use nest_rows::Sign;
use std::alloc::{AllocError, Global};

// Below another processor, or above it.
#[derive(Clone, Copy, Debug, PartialEq, Eq)]
pub(crate) enum Direction {
    Below,
    Above,
}

impl Direction {
    // The sign of the difference that is below 0.
    pub(crate) fn sign(self) -> Sign
        ensures { result ≡ sign_of (direction_seen self) }
    {
        match self {
            Direction::Below => Sign::Plus,
            Direction::Above => Sign::Minus,
        }
    }
}

// On which side of the neighbours that are waited for the first owner lies, and on which of each
// producer.
#[derive(Drop)]
pub(crate) struct Piece {
    pub(crate) range: Direction,
    pub(crate) producers: Vec<Direction>,
}

// All choices of sides for so many others, below first, the last varying fastest.
fn choices(alloc: Global, count: usize) -> Result<Vec<Vec<Direction>>, AllocError>
    ensures { IfOk result (λ all. map sides_seen all.items ≡ choices_of count) }
{
    let mut all = Vec::new(alloc);
    all.push(Vec::new(alloc))?;
    for index in 0..count {
        all = longer(alloc, all.as_slice())?;
    }
    Ok(all)
}

// The choices for one more, in front of these.
fn longer(alloc: Global, all: &[Vec<Direction>]) -> Result<Vec<Vec<Direction>>, AllocError>
    ensures { IfOk result (λ more. map sides_seen more.items ≡ map (λ ds. direction_seen Below ∷ ds)
        (map sides_seen all.now) ++ map (λ ds. direction_seen Above ∷ ds)
        (map sides_seen all.now)) }
{
    let mut more = Vec::new(alloc);
    push_with(alloc, Direction::Below, all, &mut more)?;
    push_with(alloc, Direction::Above, all, &mut more)?;
    Ok(more)
}

// These choices with a side in front, behind the others.
fn push_with(
    alloc: Global,
    side: Direction,
    all: &[Vec<Direction>],
    more: &mut Vec<Vec<Direction>>,
) -> Result<(), AllocError>
    ensures { OnOk result (map sides_seen more.new.items ≡ map sides_seen more.old.items
        ++ map (λ ds. direction_seen side ∷ ds) (map sides_seen all.now)) }
{
    for one in all {
        more.push(with_front(alloc, side, one.as_slice())?)?;
    }
    Ok(())
}

// Sides with one in front.
fn with_front(
    alloc: Global,
    side: Direction,
    sides: &[Direction],
) -> Result<Vec<Direction>, AllocError>
    ensures { IfOk result (λ all. all.items ≡ side ∷ sides.now) }
{
    let mut all = Vec::new(alloc);
    all.push(side)?;
    for &one in sides {
        all.push(one)?;
    }
    Ok(all)
}

// The pieces with so many producers, below first, the last producer varying fastest.
pub(crate) fn pieces(alloc: Global, producers: usize) -> Result<Vec<Piece>, AllocError>
    ensures { IfOk result (λ all. map piece_seen all.items ≡ pieces_of producers) }
{
    let sides = choices(alloc, producers)?;
    let mut all = Vec::new(alloc);
    push_pieces(alloc, Direction::Below, sides.as_slice(), &mut all)?;
    push_pieces(alloc, Direction::Above, sides.as_slice(), &mut all)?;
    Ok(all)
}

// The pieces in this range, behind the others.
fn push_pieces(
    alloc: Global,
    range: Direction,
    sides: &[Vec<Direction>],
    all: &mut Vec<Piece>,
) -> Result<(), AllocError>
    ensures { OnOk result (map piece_seen all.new.items ≡ map piece_seen all.old.items
        ++ map (piece_in (direction_seen range)) (map sides_seen sides.now)) }
{
    for one in sides {
        let producers = Vec::from_slice(alloc, one.as_slice())?;
        all.push(Piece { range, producers })?;
    }
    Ok(())
}
