// From the text of a statement to the statement.

ghost use Rattle.std.specs.Prelude.{◌≡◌, [], IfOk, map};
ghost use Rattle.std.specs.Option.{option_copied};
ghost use Rattle.std.specs.Vec.Iter.{into_iter_items};
ghost use Rattle.f77_forms.specs.View.{expression_of, optional_of, declarator_of, definition_of, target_of, assignment_of, comparison_of, printed_of, statement_of};
ghost use Rattle.f77_forms.specs.Reading.{Gives, FailsForMemory};
ghost use Rattle.f77_forms.specs.State.{item_of, piece_of};
ghost use Rattle.f77_forms.specs.Statements as statements;

use crate::characters::{is_digit, is_name};
use crate::fault::Fault;
use crate::form::{
    Assignment, Compare, Comparison, Declarator, Definition, DoStatement, Expression, Printed,
    Statement, Target,
};
use crate::number::{Number, number_of};
use crate::reader::pieces;
use crate::state::{Item, Piece};
use std::alloc::Global;
use std::vec::IntoIter;

fn name_of(e: Expression) -> Result<Vec<u8>, Fault>
    ensures { Gives (λ n. n.items) result (statements.name_of (expression_of e)) }
{
    match e {
        Expression::Name(name) => Ok(name),
        _ => Err(Fault::NoForm),
    }
}

fn target_from(alloc: Global, e: Expression) -> Result<Target, Fault>
    ensures { Gives target_of result (statements.target_from (expression_of e)) }
{
    match e {
        Expression::Name(name) => Ok(Target {
            name,
            arguments: Vec::new(alloc),
        }),
        Expression::Call(name, arguments) => Ok(Target { name, arguments }),
        _ => Err(Fault::NoForm),
    }
}

/// The item of the next piece, which stands behind this separator.
#[tactic(auto, unfolding(crate::specs::Statements::item_next))]
fn item_next(pieces: &mut IntoIter<Piece>, separator: u8) -> Result<Item, Fault>
    ensures { Gives (λ i. (item_of i, map piece_of (into_iter_items pieces.new))) result
        (statements.item_next separator (map piece_of (into_iter_items pieces.old))) }
{
    match pieces.next() {
        Some(piece) => {
            if piece.separator == separator {
                Ok(piece.item)
            } else {
                Err(Fault::NoForm)
            }
        }
        None => Err(Fault::NoForm),
    }
}

fn value_in(item: Item) -> Result<Expression, Fault>
    ensures { Gives expression_of result (statements.value_in (item_of item)) }
{
    match item {
        Item::Printed(Printed::Value(e)) => Ok(e),
        _ => Err(Fault::NoForm),
    }
}

#[tactic(auto, unfolding(crate::specs::Statements::value_next))]
fn value_next(pieces: &mut IntoIter<Piece>, separator: u8) -> Result<Expression, Fault>
    ensures { Gives (λ e. (expression_of e, map piece_of (into_iter_items pieces.new))) result
        (statements.value_next separator (map piece_of (into_iter_items pieces.old))) }
{
    let item = item_next(pieces, separator)?;
    value_in(item)
}

#[tactic(auto, unfolding(crate::specs::Statements::name_next))]
fn name_next(pieces: &mut IntoIter<Piece>, separator: u8) -> Result<Vec<u8>, Fault>
    ensures { Gives (λ n. (n.items, map piece_of (into_iter_items pieces.new))) result
        (statements.name_next separator (map piece_of (into_iter_items pieces.old))) }
{
    let e = value_next(pieces, separator)?;
    name_of(e)
}

/// The operator that these letters name.
#[tactic(auto, unfolding(crate::specs::Statements::compare_from))]
fn compare_from(name: &[u8]) -> Result<Compare, Fault>
    ensures { Gives (λ c. c) result (statements.compare_from name.now) }
{
    if name == b"LT".as_slice() {
        return Ok(Compare::Lt);
    }
    if name == b"LE".as_slice() {
        return Ok(Compare::Le);
    }
    if name == b"EQ".as_slice() {
        return Ok(Compare::Eq);
    }
    if name == b"GE".as_slice() {
        return Ok(Compare::Ge);
    }
    if name == b"GT".as_slice() {
        return Ok(Compare::Gt);
    }
    Err(Fault::NoForm)
}

#[tactic(auto, unfolding(crate::specs::Statements::compare_next))]
fn compare_next(pieces: &mut IntoIter<Piece>) -> Result<Compare, Fault>
    ensures { Gives (λ c. (c, map piece_of (into_iter_items pieces.new))) result
        (statements.compare_next (map piece_of (into_iter_items pieces.old))) }
{
    let name = name_next(pieces, b'.')?;
    compare_from(name.as_slice())
}

#[tactic(auto, unfolding(crate::specs::Statements::assignment_next))]
fn assignment_next(
    alloc: Global,
    pieces: &mut IntoIter<Piece>,
    separator: u8,
) -> Result<Assignment, Fault>
    ensures { Gives (λ a. (assignment_of a, map piece_of (into_iter_items pieces.new))) result
        (statements.assignment_next separator (map piece_of (into_iter_items pieces.old))) }
{
    let left = value_next(pieces, separator)?;
    let target = target_from(alloc, left)?;
    let value = value_next(pieces, b'=')?;
    Ok(Assignment { target, value })
}

#[tactic(auto, unfolding(crate::specs::Statements::comparison_next))]
fn comparison_next(pieces: &mut IntoIter<Piece>) -> Result<Comparison, Fault>
    ensures { Gives (λ c. (comparison_of c, map piece_of (into_iter_items pieces.new))) result
        (statements.comparison_next (map piece_of (into_iter_items pieces.old))) }
{
    let left = value_next(pieces, b',')?;
    let compare = compare_next(pieces)?;
    let right = value_next(pieces, b'.')?;
    Ok(Comparison {
        left,
        compare,
        right,
    })
}

/// The step of a DO, behind a comma, or none.
#[tactic(auto, unfolding(crate::specs::Statements::step_next))]
fn step_next(pieces: &mut IntoIter<Piece>) -> Result<Option<Expression>, Fault>
    ensures { Gives (λ s. (optional_of s, map piece_of (into_iter_items pieces.new))) result
        (statements.step_next (map piece_of (into_iter_items pieces.old))) }
{
    if pieces.len() == 0 {
        return Ok(None);
    }
    let step = value_next(pieces, b',')?;
    Ok(Some(step))
}

/// A statement of which no piece is left.
#[tactic(auto, unfolding(crate::specs::Statements::all_taken))]
fn all_taken(statement: Statement, pieces: &IntoIter<Piece>) -> Result<Statement, Fault>
    ensures { Gives statement_of result (statements.all_taken (statement_of statement)
        (map piece_of (into_iter_items pieces.now))) }
{
    if pieces.len() == 0 {
        Ok(statement)
    } else {
        Err(Fault::NoForm)
    }
}

#[tactic(auto, unfolding(crate::specs::Statements::declarator_in))]
fn declarator_in(alloc: Global, item: Item) -> Result<Declarator, Fault>
    ensures { Gives declarator_of result (statements.declarator_in (item_of item)) }
{
    match item {
        Item::Declared(declarator) => Ok(declarator),
        Item::Printed(Printed::Value(e)) => Ok(Declarator {
            name: name_of(e)?,
            bounds: Vec::new(alloc),
        }),
        Item::Printed(Printed::Text(_)) => Err(Fault::NoForm),
    }
}

/// The next declarator, which has bounds where it is to be bounded.
#[tactic(auto, unfolding(crate::specs::Statements::declarator_next))]
fn declarator_next(
    alloc: Global,
    bounded: bool,
    pieces: &mut IntoIter<Piece>,
) -> Result<Declarator, Fault>
    ensures { Gives (λ d. (declarator_of d, map piece_of (into_iter_items pieces.new))) result
        (statements.declarator_next bounded (map piece_of (into_iter_items pieces.old))) }
{
    let item = item_next(pieces, b',')?;
    let declarator = declarator_in(alloc, item)?;
    if bounded && declarator.bounds.is_empty() {
        return Err(Fault::NoForm);
    }
    Ok(declarator)
}

/// The declarators that these pieces are.
fn declarators_from(
    alloc: Global,
    bounded: bool,
    mut pieces: IntoIter<Piece>,
) -> Result<Vec<Declarator>, Fault>
    ensures { Gives (λ ds. map declarator_of ds.items) result
        (statements.listed (statements.declarator_next bounded)
        (map piece_of (into_iter_items pieces))) }
{
    let mut declarators = Vec::new(alloc);
    while pieces.len() > 0 {
        let declarator = declarator_next(alloc, bounded, &mut pieces)?;
        declarators.push(declarator)?;
    }
    Ok(declarators)
}

fn printed_in(item: Item) -> Result<Printed, Fault>
    ensures { Gives printed_of result (statements.printed_in (item_of item)) }
{
    match item {
        Item::Printed(printed) => Ok(printed),
        Item::Declared(_) => Err(Fault::NoForm),
    }
}

#[tactic(auto, unfolding(crate::specs::Statements::printed_next))]
fn printed_next(pieces: &mut IntoIter<Piece>) -> Result<Printed, Fault>
    ensures { Gives (λ p. (printed_of p, map piece_of (into_iter_items pieces.new))) result
        (statements.printed_next (map piece_of (into_iter_items pieces.old))) }
{
    let item = item_next(pieces, b',')?;
    printed_in(item)
}

/// The items of a PRINT that these pieces are.
fn printed_from(alloc: Global, mut pieces: IntoIter<Piece>) -> Result<Vec<Printed>, Fault>
    ensures { Gives (λ items. map printed_of items.items) result
        (statements.listed statements.printed_next (map piece_of (into_iter_items pieces))) }
{
    let mut items = Vec::new(alloc);
    while pieces.len() > 0 {
        let item = printed_next(&mut pieces)?;
        items.push(item)?;
    }
    Ok(items)
}

#[tactic(auto, unfolding(crate::specs::Statements::definition_next))]
fn definition_next(pieces: &mut IntoIter<Piece>) -> Result<Definition, Fault>
    ensures { Gives (λ d. (definition_of d, map piece_of (into_iter_items pieces.new))) result
        (statements.definition_next (map piece_of (into_iter_items pieces.old))) }
{
    let name = name_next(pieces, b',')?;
    let value = value_next(pieces, b'=')?;
    Ok(Definition { name, value })
}

/// The definitions of a PARAMETER statement that these pieces are.
fn definitions_from(alloc: Global, mut pieces: IntoIter<Piece>) -> Result<Vec<Definition>, Fault>
    ensures { Gives (λ ds. map definition_of ds.items) result
        (statements.listed statements.definition_next (map piece_of (into_iter_items pieces))) }
{
    let mut definitions = Vec::new(alloc);
    while pieces.len() > 0 {
        let definition = definition_next(&mut pieces)?;
        definitions.push(definition)?;
    }
    Ok(definitions)
}

/// A PROGRAM statement, by its name.
#[tactic(auto, unfolding(crate::specs::Statements::program_at))]
fn program(alloc: Global, name: &[u8]) -> Result<Statement, Fault>
    ensures { Gives statement_of result (statements.program_at name.now) }
{
    if is_name(name) {
        Ok(Statement::Program(name.to_vec(alloc)?))
    } else {
        Err(Fault::NoForm)
    }
}

/// The declarators of an INTEGER or DIMENSION statement.
#[tactic(auto, unfolding(crate::specs::Statements::declarators_at))]
fn declarators(alloc: Global, bounded: bool, text: &[u8]) -> Result<Vec<Declarator>, Fault>
    ensures { Gives (λ ds. map declarator_of ds.items) result (statements.declarators_at bounded
        text.now) }
{
    let listed = pieces(alloc, true, text)?;
    declarators_from(alloc, bounded, listed.into_iter())
}

/// A text in front of its last character, which is a parenthesis.
#[tactic(auto, unfolding(crate::specs::Statements::before_parenthesis))]
fn before_parenthesis(text: &[u8]) -> Option<&[u8]>
    ensures { option_copied result ≡ statements.before_parenthesis text.now }
{
    text.strip_suffix(b")")
}

/// A PARAMETER statement, by what stands behind its parenthesis.
#[tactic(auto, unfolding(crate::specs::Statements::parameter_at))]
fn parameter(alloc: Global, text: &[u8]) -> Result<Statement, Fault>
    ensures { Gives statement_of result (statements.parameter_at text.now) }
{
    match before_parenthesis(text) {
        Some(listed) => {
            let listed = pieces(alloc, false, listed)?;
            let definitions = definitions_from(alloc, listed.into_iter())?;
            Ok(Statement::Parameter(definitions))
        }
        None => Err(Fault::NoForm),
    }
}

/// A PRINT statement, by what stands behind `PRINT*`.
#[tactic(auto, unfolding(crate::specs::Statements::print_at))]
fn print(alloc: Global, text: &[u8]) -> Result<Statement, Fault>
    ensures { Gives statement_of result (statements.print_at text.now) }
{
    match text {
        [] => Ok(Statement::Print(Vec::new(alloc))),
        [b',', listed @ ..] => {
            let listed = pieces(alloc, false, listed)?;
            let items = printed_from(alloc, listed.into_iter())?;
            Ok(Statement::Print(items))
        }
        _ => Err(Fault::NoForm),
    }
}

/// An assignment.
#[tactic(auto, unfolding(crate::specs::Statements::assign_at))]
fn assign(alloc: Global, text: &[u8]) -> Result<Statement, Fault>
    ensures { Gives statement_of result (statements.assign_at text.now) }
{
    let mut pieces = pieces(alloc, false, text)?.into_iter();
    let assignment = assignment_next(alloc, &mut pieces, b',')?;
    all_taken(Statement::Assign(assignment), &pieces)
}

/// A logical IF, by what stands behind its parenthesis.
#[tactic(auto, unfolding(crate::specs::Statements::if_at))]
fn logical_if(alloc: Global, text: &[u8]) -> Result<Statement, Fault>
    ensures { Gives statement_of result (statements.if_at text.now) }
{
    let mut pieces = pieces(alloc, false, text)?.into_iter();
    let comparison = comparison_next(&mut pieces)?;
    let assignment = assignment_next(alloc, &mut pieces, b')')?;
    all_taken(Statement::If(comparison, assignment), &pieces)
}

/// The digits in front of a text, and what stands behind them.
#[tactic(auto, unfolding(crate::specs::Statements::digits_in, crate::specs::Statements::behind_digits))]
pub fn split_digits(text: &[u8]) -> (&[u8], &[u8])
    ensures digits { result.0.now ≡ statements.digits_in text.now }
    ensures behind { result.1.now ≡ statements.behind_digits text.now }
{
    for (place, byte) in text.iter().enumerate() {
        if !is_digit(*byte) {
            return text.split_at(place);
        }
    }
    text.split_at(text.len())
}

/// The label that digits are: 1 to 99999.
#[tactic(auto, unfolding(crate::specs::Statements::label_at))]
fn label(digits: &[u8]) -> Result<Number, Fault>
    ensures { Gives (λ n. n) result (statements.label_at digits.now) }
{
    let label = number_of(digits)?;
    if label.value() > 0 && label.value() <= 99999 {
        Ok(label)
    } else {
        Err(Fault::NoForm)
    }
}

/// A DO statement, by its label, whether a comma stands behind that, and what stands there.
#[tactic(auto, unfolding(crate::specs::Statements::loop_at))]
fn labelled_do(alloc: Global, label: Number, comma: bool, text: &[u8]) -> Result<Statement, Fault>
    ensures { Gives statement_of result (statements.loop_at label comma text.now) }
{
    let mut pieces = pieces(alloc, false, text)?.into_iter();
    let variable = name_next(&mut pieces, b',')?;
    let first = value_next(&mut pieces, b'=')?;
    let last = value_next(&mut pieces, b',')?;
    let step = step_next(&mut pieces)?;
    let statement = Statement::Do(DoStatement {
        label,
        comma,
        variable,
        first,
        last,
        step,
    });
    all_taken(statement, &pieces)
}

/// A DO statement, by what stands behind `DO`.
#[tactic(auto, unfolding(crate::specs::Statements::do_at, crate::specs::Statements::has_comma, crate::specs::Statements::behind_comma))]
fn do_statement(alloc: Global, text: &[u8]) -> Result<Statement, Fault>
    ensures { Gives statement_of result (statements.do_at text.now) }
{
    let (digits, behind) = split_digits(text);
    let label = label(digits)?;
    match behind {
        [b',', behind @ ..] => labelled_do(alloc, label, true, behind),
        _ => labelled_do(alloc, label, false, behind),
    }
}

/// A logical IF or a DO.
#[tactic(auto, unfolding(crate::specs::Statements::branch_at))]
fn branch(alloc: Global, text: &[u8]) -> Result<Statement, Fault>
    ensures { Gives statement_of result (statements.branch_at text.now) }
{
    if let Some(behind) = text.strip_prefix(b"IF(") {
        return logical_if(alloc, behind);
    }
    if let Some(behind) = text.strip_prefix(b"DO") {
        return do_statement(alloc, behind);
    }
    Err(Fault::NoForm)
}

/// A PRINT, an assignment, a logical IF or a DO.
#[tactic(auto, unfolding(crate::specs::Statements::executed_at))]
fn executed(alloc: Global, text: &[u8]) -> Result<Statement, Fault>
    ensures { Gives statement_of result (statements.executed_at text.now) }
{
    if let Some(behind) = text.strip_prefix(b"PRINT*") {
        return print(alloc, behind);
    }
    match assign(alloc, text) {
        Ok(statement) => Ok(statement),
        Err(Fault::NoForm) => branch(alloc, text),
        Err(Fault::Memory) => Err(Fault::Memory),
    }
}

/// A statement of more than one word.
#[tactic(auto, unfolding(crate::specs::Statements::declared_at))]
fn declared(alloc: Global, text: &[u8]) -> Result<Statement, Fault>
    ensures { Gives statement_of result (statements.declared_at text.now) }
{
    if let Some(behind) = text.strip_prefix(b"PROGRAM") {
        return program(alloc, behind);
    }
    if let Some(behind) = text.strip_prefix(b"INTEGER") {
        return Ok(Statement::Integer(declarators(alloc, false, behind)?));
    }
    if let Some(behind) = text.strip_prefix(b"DIMENSION") {
        return Ok(Statement::Dimension(declarators(alloc, true, behind)?));
    }
    if let Some(behind) = text.strip_prefix(b"PARAMETER(") {
        return parameter(alloc, behind);
    }
    executed(alloc, text)
}

/// The statement of a text.
#[tactic(auto, unfolding(crate::specs::Statements::statement_at))]
pub fn statement(alloc: Global, text: &[u8]) -> Result<Statement, Fault>
    ensures { Gives statement_of result (statements.statement_at text.now) }
{
    if text == b"CONTINUE".as_slice() {
        return Ok(Statement::Continue);
    }
    if text == b"STOP".as_slice() {
        return Ok(Statement::Stop);
    }
    if text == b"END".as_slice() {
        return Ok(Statement::End);
    }
    declared(alloc, text)
}
