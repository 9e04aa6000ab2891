// PRINTs.

ghost use Rattle.std.specs.Prelude.{◌≡◌, ◌++◌, OnOk, codes, map, string_bytes};
ghost use Rattle.std.specs.List.{flat_map};
ghost use Rattle.nest_tree.specs.View.{printed_of, tree_of};
ghost use Rattle.c_expressions.specs.Names.{shared_cell};
ghost use Rattle.c_statements.specs.Layout.{escaped, is_plain, item_text, print_text, whole_text};
ghost use Rattle.c_statements.specs.Texts.{Written, code};

use crate::body::Body;
use crate::lines::{put_code, put_indent, put_line};
use c_expressions::{Place, put_natural, put_text};
use nest_tree::PrintItem;
use std::alloc::AllocError;

impl Body<'_> {
    // Appends a PRINT, so deep.
    pub(crate) fn put_print(
        &self,
        out: &mut String,
        items: &[PrintItem],
        depth: u32,
    ) -> Result<(), AllocError>
        ensures { OnOk result (Written (print_text (tree_of self.now.scope.program.now)
            self.now.scope.privates.now (map printed_of items.now)) (string_bytes out.old)
            (string_bytes out.new)) }
    {
        for item in items {
            self.put_item(out, item, depth)?;
        }
        put_line(out, depth, "putchar('\\n');")
    }

    fn put_item(&self, out: &mut String, item: &PrintItem, depth: u32) -> Result<(), AllocError>
        ensures { OnOk result (Written (item_text (tree_of self.now.scope.program.now)
            self.now.scope.privates.now (printed_of item.now)) (string_bytes out.old) (string_bytes
            out.new)) }
    {
        put_indent(out, depth)?;
        match item {
            PrintItem::Value(value) => {
                put_code(out, "print(")?;
                self.scope.put_value(out, value, Place::Sum)?;
                put_code(out, ");\n")
            }
            PrintItem::Whole(variable) => self.put_whole(out, *variable),
            PrintItem::Text(characters) => put_characters(out, characters),
        }
    }

    // Appends the printing of all elements of an array.
    fn put_whole(&self, out: &mut String, variable: u32) -> Result<(), AllocError>
        ensures { OnOk result (Written (whole_text (tree_of self.now.scope.program.now) variable)
            (string_bytes out.old) (string_bytes out.new)) }
    {
        self.put_array(out, variable)?;
        put_natural(out, element_count(self.scope.bounds(variable)))?;
        put_code(out, ");\n")
    }

    fn put_array(&self, out: &mut String, variable: u32) -> Result<(), AllocError>
        ensures { OnOk result (Written (code (codes "print_all(" ++ (shared_cell (tree_of
            self.now.scope.program.now) variable ++ codes ", "))) (string_bytes out.old)
            (string_bytes out.new)) }
    {
        put_text(out, "print_all(")?;
        self.scope.put_name(out, "v_", variable)?;
        put_text(out, ", ")
    }
}

/// How many elements an array with these bounds has; past 2^64 it counts as 2^64 - 1.
pub fn element_count(bounds: &[(i64, i64)]) -> u64 {
    let mut count = 1u64;
    for &(low, high) in bounds {
        count = count.saturating_mul(high.abs_diff(low).saturating_add(1));
    }
    count
}

// Appends the printing of a character constant.
fn put_characters(out: &mut String, characters: &[u8]) -> Result<(), AllocError>
    ensures { OnOk result (Written (code (codes "fputs(\" " ++ (flat_map escaped characters.now ++
        codes "\", stdout);\n"))) (string_bytes out.old) (string_bytes out.new)) }
{
    put_text(out, "fputs(\" ")?;
    for &byte in characters {
        put_byte(out, byte)?;
    }
    put_text(out, "\", stdout);\n")
}

// Appends a byte of a character constant as C has it: some as three digits.
fn put_byte(out: &mut String, byte: u8) -> Result<(), AllocError>
    ensures { OnOk result (string_bytes out.new ≡ string_bytes out.old ++ escaped byte) }
{
    if is_plain(byte) {
        return out.push(char::from(byte));
    }
    put_text(out, "\\")?;
    out.push(char::from(48 + byte / 64))?;
    out.push(char::from(48 + byte / 8 % 8))?;
    out.push(char::from(48 + byte % 8))
}

fn is_plain(byte: u8) -> bool
    ensures { result ≡ is_plain byte }
{
    32 <= byte && byte <= 126 && !(byte == 34 || byte == 63 || byte == 92)
}
