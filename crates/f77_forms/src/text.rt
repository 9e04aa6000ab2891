// The statement of a text, or why it has none.

ghost use Rattle.std.specs.Prelude.{◌≡◌, ◌≢◌, Err, IfOk};
ghost use Rattle.f77_forms.specs.Answer.{IsRefused, IsReadAs, IsRefusedAs, Answers};
ghost use Rattle.f77_forms.specs.Form.{StatementForm};
ghost use Rattle.f77_forms.specs.Statements.{statement_at};
ghost use Rattle.f77_forms.specs.Text.{HasForm};
ghost use Rattle.f77_forms.specs.View.{statement_of};
ghost use Rattle.f77_forms.specs.declared.fault.TextFault.{TextFault};

use crate::fault::{Fault, TextFault};
use crate::form::Statement;
use crate::mark::text_fault;
use crate::statement::statement;
use std::alloc::Global;

fn answer(alloc: Global, text: &[u8]) -> Result<Statement, TextFault>
    ensures { Answers result (statement_at text.now) text.now }
{
    match statement(alloc, text) {
        Ok(statement) => Ok(statement),
        Err(Fault::Memory) => Err(TextFault::NoMemory),
        Err(Fault::NoForm) => match text_fault(alloc, text) {
            Ok(fault) => Err(fault),
            Err(_) => Err(TextFault::NoMemory),
        },
    }
}

/// The statement of a text: a statement's characters without the blanks outside character
/// constants, with its letters in capitals there.
///
/// The statement prints as the text, and no other does. A text without form is refused with the
/// first of these that it has: `NotInProfile`, `LiteralTooLarge`, `NoForm`. `NoMemory` may come in
/// place of any answer.
pub fn read_statement(alloc: Global, text: &[u8]) -> Result<Statement, TextFault>
    // What is read has a form that the text has.
    ensures found { IfOk result (λ s. HasForm text.now (statement_of s)) }
    // A text that has a form is read as it.
    ensures only { (f : StatementForm) → HasForm text.now f → IsReadAs f result }
    // What is refused has no form, and this fault.
    ensures refused { (fault : TextFault) → result ≡ Err fault → fault ≢ TextFault.NoMemory
        → IsRefused text.now fault }
    // A text without form is refused with its fault.
    ensures refuses { (fault : TextFault) → IsRefused text.now fault → IsRefusedAs fault result }
{
    answer(alloc, text)
}
