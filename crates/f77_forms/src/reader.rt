// Steps from a character to the next.

ghost use Rattle.std.specs.Prelude.{◌≡◌, IfOk, map};
ghost use Rattle.f77_forms.specs.View.{expression_of, optional_of, bound_of};
ghost use Rattle.f77_forms.specs.Reading as reading;
ghost use Rattle.f77_forms.specs.Reading.{Gives, FailsForMemory};
ghost use Rattle.f77_forms.specs.State.{pending_of, item_of, piece_of, opener_of, level_of, levels_of, operand_of};
ghost use Rattle.f77_forms.specs.StateView.{state_of};

use crate::characters::{is_capital_or_digit, is_name};
use crate::fault::Fault;
use crate::form::{Bound, Declarator, Expression, Operator, Printed, Sign};
use crate::number::number_of;
use crate::state::{Item, Level, Opener, Operand, Pending, Piece};
use std::alloc::Global;
use std::mem;

/// Where a text stands in front of one of its characters: in the levels round the innermost, and
/// in that one.
#[derive(Drop)]
pub struct Place {
    /// From the outermost.
    pub outer: Vec<Level>,
    pub level: Level,
}

/// An operand behind what waits for it.
#[tactic(auto, unfolding(crate::specs::Reading::combined))]
fn combined(alloc: Global, pending: Pending, e: Expression) -> Result<Expression, Fault>
    ensures combined { IfOk result (λ r. expression_of r
        ≡ reading.combined (pending_of pending) (expression_of e)) }
    ensures err { FailsForMemory result }
{
    match pending {
        Pending::Nothing => Ok(e),
        Pending::Lead(sign) => Ok(Expression::Signed(sign, Box::new(alloc, e)?)),
        Pending::Left(left, operator) => {
            let left = Box::new(alloc, left)?;
            Ok(Expression::Binary(operator, left, Box::new(alloc, e)?))
        }
    }
}

/// The name or the number that a word is.
#[tactic(auto, unfolding(crate::specs::Reading::word_value))]
fn word_value(word: Vec<u8>) -> Result<Expression, Fault>
    ensures { Gives expression_of result (reading.word_value word.items) }
{
    if is_name(word.as_slice()) {
        return Ok(Expression::Name(word));
    }
    Ok(Expression::Number(number_of(word.as_slice())?))
}

/// The expression that an operand is.
#[tactic(auto, unfolding(crate::specs::Reading::operand_value))]
fn operand_value(operand: Operand) -> Result<Expression, Fault>
    ensures { Gives expression_of result (reading.operand_value (operand_of operand)) }
{
    match operand {
        Operand::Word(word) => word_value(word),
        Operand::Whole(e) => Ok(e),
        Operand::Missing | Operand::Declarator(_) | Operand::Quoted(_) | Operand::Closed(_) => {
            Err(Fault::NoForm)
        }
    }
}

/// The term that an operand ends.
#[tactic(auto, unfolding(crate::specs::Reading::term_value))]
fn term_value(alloc: Global, product: Pending, operand: Operand) -> Result<Expression, Fault>
    ensures { Gives expression_of result (reading.term_value (pending_of product)
        (operand_of operand)) }
{
    let factor = operand_value(operand)?;
    combined(alloc, product, factor)
}

/// The expression that an operand ends.
#[tactic(auto, unfolding(crate::specs::Reading::sum_value))]
fn sum_value(
    alloc: Global,
    sum: Pending,
    product: Pending,
    operand: Operand,
) -> Result<Expression, Fault>
    ensures { Gives expression_of result (reading.sum_value (pending_of sum) (pending_of product)
        (operand_of operand)) }
{
    let term = term_value(alloc, product, operand)?;
    combined(alloc, sum, term)
}

fn is_nothing(pending: &Pending) -> bool
    ensures { result ≡ reading.is_nothing (pending_of pending.now) }
{
    matches!(pending, Pending::Nothing)
}

fn is_missing(operand: &Operand) -> bool
    ensures { result ≡ reading.is_missing (operand_of operand.now) }
{
    matches!(operand, Operand::Missing)
}

/// The item that an operand ends.
#[tactic(auto, unfolding(crate::specs::Reading::item_value))]
fn item_value(
    alloc: Global,
    sum: Pending,
    product: Pending,
    operand: Operand,
) -> Result<Item, Fault>
    ensures { Gives item_of result (reading.item_value (pending_of sum) (pending_of product)
        (operand_of operand)) }
{
    match operand {
        Operand::Declarator(declarator) => {
            if is_nothing(&sum) && is_nothing(&product) {
                Ok(Item::Declared(declarator))
            } else {
                Err(Fault::NoForm)
            }
        }
        Operand::Closed(characters) => {
            if is_nothing(&sum) && is_nothing(&product) && !characters.is_empty() {
                Ok(Item::Printed(Printed::Text(characters)))
            } else {
                Err(Fault::NoForm)
            }
        }
        Operand::Word(word) => {
            let e = sum_value(alloc, sum, product, Operand::Word(word))?;
            Ok(Item::Printed(Printed::Value(e)))
        }
        Operand::Whole(e) => {
            let e = sum_value(alloc, sum, product, Operand::Whole(e))?;
            Ok(Item::Printed(Printed::Value(e)))
        }
        Operand::Missing | Operand::Quoted(_) => Err(Fault::NoForm),
    }
}

fn additive(sign: Sign) -> Operator
    ensures { result ≡ reading.additive sign }
{
    match sign {
        Sign::Plus => Operator::Add,
        Sign::Minus => Operator::Subtract,
    }
}

/// What a sign makes of what waits for a term: a leading sign, or one behind a left operand.
#[tactic(auto, unfolding(crate::specs::Reading::pending_sum))]
fn pending_sum(
    alloc: Global,
    sum: Pending,
    product: Pending,
    operand: Operand,
    sign: Sign,
) -> Result<Pending, Fault>
    ensures { Gives pending_of result (reading.pending_sum (pending_of sum) (pending_of product)
        (operand_of operand) sign) }
{
    if is_missing(&operand) {
        if is_nothing(&sum) && is_nothing(&product) {
            return Ok(Pending::Lead(sign));
        }
        return Err(Fault::NoForm);
    }
    let left = sum_value(alloc, sum, product, operand)?;
    Ok(Pending::Left(left, additive(sign)))
}

/// What a parenthesis behind a name opens.
#[tactic(auto, unfolding(crate::specs::Reading::opened))]
fn opened(alloc: Global, outside: &Opener, name: Vec<u8>) -> Opener
    ensures { opener_of result ≡ reading.opened (opener_of outside.now) name.items }
{
    match outside {
        Opener::Pieces(true, _, _) => Opener::Bounds(name, Vec::new(alloc), None),
        _ => Opener::Arguments(name, Vec::new(alloc)),
    }
}

/// What a parenthesis behind an operand opens.
#[tactic(auto, unfolding(crate::specs::Reading::opener_at))]
fn opener_at(alloc: Global, outside: &Opener, operand: Operand) -> Result<Opener, Fault>
    ensures { Gives opener_of result (reading.opener_at (opener_of outside.now)
        (operand_of operand)) }
{
    match operand {
        Operand::Missing => Ok(Opener::Group),
        Operand::Word(word) => {
            if is_name(word.as_slice()) {
                Ok(opened(alloc, outside, word))
            } else {
                Err(Fault::NoForm)
            }
        }
        _ => Err(Fault::NoForm),
    }
}

#[tactic(auto, unfolding(crate::specs::Reading::is_separator))]
fn is_separator(byte: u8) -> bool
    ensures { result ≡ reading.is_separator byte }
{
    byte == b',' || byte == b'=' || byte == b'.' || byte == b')'
}

/// Bounds behind one whose last expression this is, and behind its separator.
#[tactic(auto, unfolding(crate::specs::Reading::bounds_behind))]
fn bounds_behind(
    name: Vec<u8>,
    mut front: Vec<Bound>,
    lower: Option<Expression>,
    e: Expression,
    byte: u8,
) -> Result<Opener, Fault>
    ensures { Gives opener_of result (reading.bounds_behind name.items (map bound_of front.items)
        (optional_of lower) (expression_of e) byte) }
{
    if byte == b',' {
        front.push(Bound { lower, upper: e })?;
        return Ok(Opener::Bounds(name, front, None));
    }
    if byte == b':' && lower.is_none() {
        return Ok(Opener::Bounds(name, front, Some(e)));
    }
    Err(Fault::NoForm)
}

/// Where what follows a separator stands.
#[tactic(auto, unfolding(crate::specs::Reading::opener_behind))]
fn opener_behind(
    alloc: Global,
    opener: Opener,
    sum: Pending,
    product: Pending,
    operand: Operand,
    byte: u8,
) -> Result<Opener, Fault>
    ensures { Gives opener_of result (reading.opener_behind (opener_of opener) (pending_of sum)
        (pending_of product) (operand_of operand) byte) }
{
    match opener {
        Opener::Pieces(declares, mut front, separator) => {
            if !is_separator(byte) {
                return Err(Fault::NoForm);
            }
            let item = item_value(alloc, sum, product, operand)?;
            front.push(Piece { separator, item })?;
            Ok(Opener::Pieces(declares, front, byte))
        }
        Opener::Group => Err(Fault::NoForm),
        Opener::Arguments(name, mut front) => {
            if byte != b',' {
                return Err(Fault::NoForm);
            }
            let e = sum_value(alloc, sum, product, operand)?;
            front.push(e)?;
            Ok(Opener::Arguments(name, front))
        }
        Opener::Bounds(name, front, lower) => {
            let e = sum_value(alloc, sum, product, operand)?;
            bounds_behind(name, front, lower, e, byte)
        }
    }
}

/// The operand behind the parenthesis that ends a level in which this expression stands last.
#[tactic(auto, unfolding(crate::specs::Reading::enclosed))]
fn enclosed(alloc: Global, opener: Opener, e: Expression) -> Result<Operand, Fault>
    ensures enclosed { IfOk result (λ o. operand_of o ≡ reading.enclosed (opener_of opener)
        (expression_of e)) }
    ensures err { FailsForMemory result }
{
    match opener {
        Opener::Pieces(_, _, _) => Ok(Operand::Missing),
        Opener::Group => Ok(Operand::Whole(Expression::Parenthesized(Box::new(alloc, e)?))),
        Opener::Arguments(name, mut front) => {
            front.push(e)?;
            Ok(Operand::Whole(Expression::Call(name, front)))
        }
        Opener::Bounds(name, mut bounds, lower) => {
            bounds.push(Bound { lower, upper: e })?;
            Ok(Operand::Declarator(Declarator { name, bounds }))
        }
    }
}

fn is_outermost(opener: &Opener) -> bool
    ensures { result ≡ reading.is_outermost (opener_of opener.now) }
{
    matches!(opener, Opener::Pieces(_, _, _))
}

fn bare(opener: Opener) -> Level
    ensures { level_of result ≡ reading.bare (opener_of opener) }
{
    Level {
        opener,
        sum: Pending::Nothing,
        product: Pending::Nothing,
    }
}

/// A step by a sign.
#[tactic(auto, unfolding(crate::specs::Reading::add_step))]
fn add_step(
    alloc: Global,
    place: &mut Place,
    operand: Operand,
    sign: Sign,
) -> Result<Operand, Fault>
    ensures { Gives (state_of place.new) result (reading.add_step (state_of place.old operand)
        sign) }
{
    let sum = mem::replace(&mut place.level.sum, Pending::Nothing);
    let product = mem::replace(&mut place.level.product, Pending::Nothing);
    place.level.sum = pending_sum(alloc, sum, product, operand, sign)?;
    Ok(Operand::Missing)
}

/// A step by `*` or `/`.
#[tactic(auto, unfolding(crate::specs::Reading::multiply_step))]
fn multiply_step(
    alloc: Global,
    place: &mut Place,
    operand: Operand,
    operator: Operator,
) -> Result<Operand, Fault>
    ensures { Gives (state_of place.new) result (reading.multiply_step (state_of place.old operand)
        operator) }
{
    let product = mem::replace(&mut place.level.product, Pending::Nothing);
    let left = term_value(alloc, product, operand)?;
    place.level.product = Pending::Left(left, operator);
    Ok(Operand::Missing)
}

/// A step by an opening parenthesis.
#[tactic(auto, unfolding(crate::specs::Reading::open_step))]
fn open_step(alloc: Global, place: &mut Place, operand: Operand) -> Result<Operand, Fault>
    ensures { Gives (state_of place.new) result (reading.open_step (state_of place.old operand)) }
{
    let opener = opener_at(alloc, &place.level.opener, operand)?;
    let outside = mem::replace(&mut place.level, bare(opener));
    place.outer.push(outside)?;
    Ok(Operand::Missing)
}

/// A step by a separator.
#[tactic(auto, unfolding(crate::specs::Reading::separate_step))]
fn separate_step(
    alloc: Global,
    place: &mut Place,
    operand: Operand,
    byte: u8,
) -> Result<Operand, Fault>
    ensures { Gives (state_of place.new) result (reading.separate_step (state_of place.old operand)
        byte) }
{
    let Level {
        opener,
        sum,
        product,
    } = mem::replace(&mut place.level, bare(Opener::Group));
    let opener = opener_behind(alloc, opener, sum, product, operand, byte)?;
    place.level = bare(opener);
    Ok(Operand::Missing)
}

/// Leaves the innermost level, which this operand ends.
#[tactic(auto, unfolding(crate::specs::Reading::left_to))]
fn leave(place: &mut Place, operand: Operand) -> Result<Operand, Fault>
    ensures { Gives (state_of place.new) result (reading.left_to (levels_of place.old.outer.items)
        (operand_of operand)) }
{
    match place.outer.pop() {
        Some(level) => {
            place.level = level;
            Ok(operand)
        }
        None => Err(Fault::NoForm),
    }
}

/// A step by a closing parenthesis.
#[tactic(auto, unfolding(crate::specs::Reading::close_step))]
fn close_step(alloc: Global, place: &mut Place, operand: Operand) -> Result<Operand, Fault>
    ensures { Gives (state_of place.new) result (reading.close_step (state_of place.old operand)) }
{
    if is_outermost(&place.level.opener) {
        return separate_step(alloc, place, operand, b')');
    }
    let Level {
        opener,
        sum,
        product,
    } = mem::replace(&mut place.level, bare(Opener::Group));
    let e = sum_value(alloc, sum, product, operand)?;
    let operand = enclosed(alloc, opener, e)?;
    leave(place, operand)
}

/// A step by an apostrophe in front of a constant.
#[tactic(auto, unfolding(crate::specs::Reading::quote_step))]
fn quote_step(alloc: Global, place: &Place, operand: Operand) -> Result<Operand, Fault>
    ensures { Gives (state_of place.now) result (reading.quote_step (state_of place.now operand)) }
{
    if is_outermost(&place.level.opener)
        && is_missing(&operand)
        && is_nothing(&place.level.sum)
        && is_nothing(&place.level.product)
    {
        Ok(Operand::Quoted(Vec::new(alloc)))
    } else {
        Err(Fault::NoForm)
    }
}

/// A step by a character that is no capital and no digit.
#[tactic(auto, unfolding(crate::specs::Reading::symbol_step))]
fn symbol_step(
    alloc: Global,
    place: &mut Place,
    operand: Operand,
    byte: u8,
) -> Result<Operand, Fault>
    ensures { Gives (state_of place.new) result (reading.symbol_step (state_of place.old operand)
        byte) }
{
    match byte {
        b'+' => add_step(alloc, place, operand, Sign::Plus),
        b'-' => add_step(alloc, place, operand, Sign::Minus),
        b'*' => multiply_step(alloc, place, operand, Operator::Multiply),
        b'/' => multiply_step(alloc, place, operand, Operator::Divide),
        b'(' => open_step(alloc, place, operand),
        b')' => close_step(alloc, place, operand),
        b'\'' => quote_step(alloc, place, operand),
        _ => separate_step(alloc, place, operand, byte),
    }
}

/// A word with one more capital or digit.
#[tactic(auto, unfolding(crate::specs::Reading::letter_at))]
fn letter_at(alloc: Global, operand: Operand, byte: u8) -> Result<Operand, Fault>
    ensures { Gives operand_of result (reading.letter_at (operand_of operand) byte) }
{
    match operand {
        Operand::Missing => {
            let mut word = Vec::new(alloc);
            word.push(byte)?;
            Ok(Operand::Word(word))
        }
        Operand::Word(mut word) => {
            word.push(byte)?;
            Ok(Operand::Word(word))
        }
        _ => Err(Fault::NoForm),
    }
}

/// A step outside constants.
#[tactic(auto, unfolding(crate::specs::Reading::plain_step))]
fn plain_step(
    alloc: Global,
    place: &mut Place,
    operand: Operand,
    byte: u8,
) -> Result<Operand, Fault>
    ensures { Gives (state_of place.new) result (reading.plain_step (state_of place.old operand)
        byte) }
{
    if is_capital_or_digit(byte) {
        letter_at(alloc, operand, byte)
    } else {
        symbol_step(alloc, place, operand, byte)
    }
}

/// A character behind those of a constant.
fn quoted_at(mut characters: Vec<u8>, byte: u8) -> Result<Operand, Fault>
    ensures operand { IfOk result (λ o. operand_of o ≡ reading.quoted_at characters.items byte) }
    ensures err { FailsForMemory result }
{
    if byte == b'\'' {
        return Ok(Operand::Closed(characters));
    }
    characters.push(byte)?;
    Ok(Operand::Quoted(characters))
}

/// A step: the operand behind a character.
#[tactic(auto, unfolding(crate::specs::Reading::step, crate::specs::Reading::step_at))]
fn step(alloc: Global, place: &mut Place, operand: Operand, byte: u8) -> Result<Operand, Fault>
    ensures { Gives (state_of place.new) result (reading.step (state_of place.old operand) byte) }
{
    match operand {
        Operand::Quoted(characters) => quoted_at(characters, byte),
        Operand::Closed(mut characters) if byte == b'\'' => {
            characters.push(byte)?;
            Ok(Operand::Quoted(characters))
        }
        operand => plain_step(alloc, place, operand, byte),
    }
}

/// The pieces at the end of a text.
#[tactic(auto, unfolding(crate::specs::Reading::finished, crate::specs::Reading::ended))]
fn finished(alloc: Global, place: Place, operand: Operand) -> Result<Vec<Piece>, Fault>
    ensures { Gives (λ ps. map piece_of ps.items) result
        (reading.finished (state_of place operand)) }
{
    let Place { outer, level } = place;
    let Level {
        opener,
        sum,
        product,
    } = level;
    if !outer.is_empty() {
        return Err(Fault::NoForm);
    }
    match opener {
        Opener::Pieces(_, mut front, separator) => {
            let item = item_value(alloc, sum, product, operand)?;
            front.push(Piece { separator, item })?;
            Ok(front)
        }
        _ => Err(Fault::NoForm),
    }
}

/// The pieces of a text, the first behind a comma that is thought in front of it; whether a
/// name's parentheses hold bounds.
#[tactic(auto, unfolding(crate::specs::Reading::run, crate::specs::Reading::pieces_at))]
pub fn pieces(alloc: Global, declares: bool, text: &[u8]) -> Result<Vec<Piece>, Fault>
    ensures { Gives (λ ps. map piece_of ps.items) result (reading.pieces_at declares text.now) }
{
    let mut place = Place {
        outer: Vec::new(alloc),
        level: bare(Opener::Pieces(declares, Vec::new(alloc), b',')),
    };
    let mut operand = Operand::Missing;
    for byte in text {
        operand = step(alloc, &mut place, operand, *byte)?;
    }
    finished(alloc, place, operand)
}
