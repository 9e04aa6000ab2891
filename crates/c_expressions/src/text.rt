// What stands in expressions most often. Where memory runs out, here and below, a part may be appended.

ghost use Rattle.std.specs.Prelude.{◌≡◌, ◌++◌, [], OnOk, string_bytes, if◌then◌else◌};
ghost use Rattle.std.specs.Fmt.{decimal, signed_decimal};
ghost use Rattle.c_expressions.specs.CExpressions.{identifier};
ghost use Rattle.c_expressions.specs.Grammar.{Appends, postfix, unary};
ghost use Rattle.c_expressions.specs.Names.{loop_name};
ghost use Rattle.c_expressions.specs.Numbers.{literal_of, word_of};

use itoa::Buffer;
use std::alloc::AllocError;

/// Appends a number without sign, in decimals.
pub fn put_natural(out: &mut String, number: u64) -> Result<(), AllocError>
    ensures { OnOk result (string_bytes out.new ≡ string_bytes out.old ++ decimal number) }
{
    let mut buffer = Buffer::new();
    out.push_str(buffer.format(number))
}

/// Appends a number, in decimals.
pub fn put_number(out: &mut String, number: i64) -> Result<(), AllocError>
    ensures { OnOk result (string_bytes out.new ≡ string_bytes out.old ++ signed_decimal number) }
{
    let mut buffer = Buffer::new();
    out.push_str(buffer.format(number))
}

/// Appends a text as it is.
pub fn put_text(out: &mut String, text: &str) -> Result<(), AllocError>
    ensures { OnOk result (string_bytes out.new ≡ string_bytes out.old ++ text.now) }
{
    out.push_str(text)
}

// Appends a word where it is wanted.
pub(crate) fn put_if(out: &mut String, is_wanted: bool, word: &str) -> Result<(), AllocError>
    ensures { OnOk result (string_bytes out.new ≡ string_bytes out.old
        ++ (if is_wanted then word.now else [])) }
{
    if is_wanted {
        put_text(out, word)
    } else {
        Ok(())
    }
}

/// Appends a number as C has it: the least one is no constant.
pub fn put_literal(out: &mut String, number: i64) -> Result<(), AllocError>
    ensures { OnOk result (Appends (string_bytes out.old) (string_bytes out.new) unary
        (literal_of number)) }
{
    if number == i64::MIN {
        put_text(out, "INT64_MIN")
    } else {
        put_number(out, number)
    }
}

// Appends a number as a word.
pub(crate) fn put_word(out: &mut String, number: i64) -> Result<(), AllocError>
    ensures { OnOk result (Appends (string_bytes out.old) (string_bytes out.new) postfix
        (word_of (literal_of number))) }
{
    put_text(out, "W(")?;
    put_literal(out, number)?;
    put_text(out, ")")
}

/// Appends the name of a loop's value.
pub fn put_loop(out: &mut String, number: u32) -> Result<(), AllocError>
    ensures { OnOk result (string_bytes out.new ≡ string_bytes out.old ++ loop_name number) }
{
    put_text(out, "i")?;
    put_natural(out, u64::from(number))
}

// Appends the value of a loop as a word.
pub(crate) fn put_loop_word(out: &mut String, number: u32) -> Result<(), AllocError>
    ensures { OnOk result (Appends (string_bytes out.old) (string_bytes out.new) postfix
        (word_of (identifier (loop_name number)))) }
{
    put_text(out, "W(")?;
    put_loop(out, number)?;
    put_text(out, ")")
}
