// How arrays are distributed.

ghost use Rattle.std.specs.Prelude.{◌≡◌, ◌<◌, ◌+◌, reverse, IfOk};
ghost use Rattle.f77_program.specs.Pieces.{names_view};
ghost use Rattle.f77_scene.specs.Directives as directives;
ghost use Rattle.f77_source.specs.Placings as spec;

use f77_program::Names;
use nest_tree::Spread;
use std::alloc::{AllocError, Global};

/// A distributed dimension, from 1, and how its places are dealt.
pub type Placing = (u32, Spread);

/// All ways to distribute an array of at most three dimensions.
const PLACINGS: [Placing; 6] = [
    (1, Spread::Block),
    (1, Spread::Cyclic),
    (2, Spread::Block),
    (2, Spread::Cyclic),
    (3, Spread::Block),
    (3, Spread::Cyclic),
];

/// These texts, the last one first.
pub fn from_last(alloc: Global, texts: &[&[u8]]) -> Result<Names, AllocError>
    ensures { IfOk result (λ names. names ≡ reverse (names_view texts.now)) }
{
    let mut names = Names::new(alloc);
    for place in (0..texts.len()).rev() {
        names.push(alloc, texts[place])?;
    }
    Ok(names)
}

/// How an array of so many dimensions is distributed: as the last directive says that speaks of
/// it, else in blocks along its last dimension.
pub fn placing_of(
    alloc: Global,
    texts: &Names,
    name: &[u8],
    dimensions: u32,
) -> Result<Placing, AllocError>
    ensures { IfOk result (λ p. p ≡ directives.placed (reverse texts.now) name.now dimensions) }
{
    let mut placing = (dimensions, Spread::Block);
    let mut first = None;
    for candidate in &PLACINGS {
        let number = directive_number(alloc, texts, name, dimensions, *candidate)?;
        if is_before(number, first) {
            first = number;
            placing = *candidate;
        }
    }
    Ok(placing)
}

/// The number of the directive that distributes an array of so many dimensions so, if there is one.
fn directive_number(
    alloc: Global,
    texts: &Names,
    name: &[u8],
    dimensions: u32,
    placing: Placing,
) -> Result<Option<u32>, AllocError>
    ensures { IfOk result (λ number. number ≡ spec.directive_number texts.now name.now dimensions
        placing) }
{
    if placing.0 > dimensions {
        return Ok(None);
    }
    let text = directive_text(alloc, name, dimensions, placing)?;
    Ok(texts.number(&text))
}

/// Whether a number is there and is less than the other, or the other is not there.
fn is_before(number: Option<u32>, other: Option<u32>) -> bool
    ensures { result ≡ spec.is_before number other }
{
    match (number, other) {
        (Some(number), Some(other)) => number < other,
        (Some(_), None) => true,
        (None, _) => false,
    }
}

/// The text of the directive that distributes an array of so many dimensions so.
fn directive_text(
    alloc: Global,
    name: &[u8],
    dimensions: u32,
    placing: Placing,
) -> Result<Vec<u8>, AllocError>
    ensures { IfOk result (λ text. text.items ≡ directives.directive_text name.now dimensions
        placing) }
{
    let items = items_text(alloc, dimensions, placing)?;
    let mut text = Vec::from_slice(alloc, name)?;
    text.push(b'(')?;
    if let Some((_, items)) = items.split_first() {
        text.extend_from_slice(items)?;
    }
    text.push(b')')?;
    Ok(text)
}

/// The items of so many dimensions, each behind a comma.
fn items_text(alloc: Global, dimensions: u32, placing: Placing) -> Result<Vec<u8>, AllocError>
    ensures { IfOk result (λ text. text.items ≡ directives.items_text dimensions 1 placing) }
{
    let mut text = Vec::new(alloc);
    for dimension in 0..dimensions {
        text.push(b',')?;
        text.extend_from_slice(item_text(dimension, placing))?;
    }
    Ok(text)
}

/// The item of a dimension, from 0: a word where it is the distributed one.
fn item_text(dimension: u32, placing: Placing) -> &'static [u8]
    requires { dimension < 4294967295 }
    ensures { result.now ≡ spec.item_text (dimension + 1) placing }
{
    if dimension + 1 != placing.0 {
        return b"*";
    }
    match placing.1 {
        Spread::Block => b"BLOCK",
        Spread::Cyclic => b"CYCLIC",
    }
}
