// The line of a PRINT.

ghost use Rattle.std.specs.Prelude.{◌≡◌, ◌+◌, ◌*◌, ◌≤◌, [], ◌∷◌, ◌++◌, IsOk, IsTrue, OnOk, drop, length, map, take};
ghost use Rattle.std.specs.List.{flat_map, list_all};
ghost use Rattle.nest_tree.specs.Layout.{bounds_of, element_count};
ghost use Rattle.nest_tree.specs.Tree.{param_values};
ghost use Rattle.nest_tree.specs.View.{printed_of, tree_of};
ghost use Rattle.nest_model.specs.Memory.{items_text, number_text};
ghost use Rattle.seq_meaning.specs.Lines.{has_text, item_load_count, item_text, items_load_count};
ghost use Rattle.seq_meaning.specs.Room.{longest_item, longest_items};

use crate::output::Output;
use crate::value::Given;
use nest_tree::{PrintItem, Program};
use std::alloc::AllocError;

impl Output {
    /// The line of a PRINT, with its line end, whose items are evaluated from what is given.
    pub fn push_line(
        &mut self,
        program: &Program,
        items: &[PrintItem],
        given: &Given,
    ) -> Result<(), AllocError>
        requires params { given.now.params.now ≡ param_values (tree_of program.now) }
        requires texts { IsTrue
            (list_all (has_text (tree_of program.now) (length given.now.loops.now))
            (map printed_of items.now)) }
        requires loads { items_load_count (tree_of program.now) (map printed_of items.now)
            ≤ length given.now.loaded.now }
        ensures line { OnOk result (self.new.bytes ≡ self.old.bytes
            ++ (items_text (tree_of program.now) given.now.loops.now
            (map printed_of items.now) given.now.loaded.now ++ 10 ∷ [])) }
        ensures fits { length self.old.bytes + (longest_items (tree_of program.now)
            (map printed_of items.now) + 1) ≤ self.old.room → IsOk result }
        ensures grown { length self.new.bytes ≤ length self.old.bytes +
            (longest_items (tree_of program.now) (map printed_of items.now) + 1) }
        ensures room { self.old.room ≤ self.new.room }
    {
        let mut at = 0;
        for item in items {
            self.push_item(program, item, given, &mut at)?;
        }
        self.end_line()
    }

    // The text of an item, whose loads gave what stands from `at` on, which moves past them.
    fn push_item(
        &mut self,
        program: &Program,
        item: &PrintItem,
        given: &Given,
        at: &mut usize,
    ) -> Result<(), AllocError>
        requires params { given.now.params.now ≡ param_values (tree_of program.now) }
        requires texts { IsTrue (has_text (tree_of program.now) (length given.now.loops.now)
            (printed_of item.now)) }
        requires loads { item_load_count (tree_of program.now) (printed_of item.now) ≤ length
            (drop at.old given.now.loaded.now) }
        ensures text { OnOk result (self.new.bytes ≡ self.old.bytes
            ++ item_text (tree_of program.now) given.now.loops.now (printed_of item.now)
            (drop at.old given.now.loaded.now)) }
        ensures rest { OnOk result (drop at.new given.now.loaded.now
            ≡ drop (item_load_count (tree_of program.now) (printed_of item.now))
            (drop at.old given.now.loaded.now)) }
        ensures fits { length self.old.bytes + longest_item (tree_of program.now)
            (printed_of item.now) ≤ self.old.room → IsOk result }
        ensures grown { length self.new.bytes ≤ length self.old.bytes + longest_item
            (tree_of program.now) (printed_of item.now) }
        ensures room { self.old.room ≤ self.new.room }
    {
        match item {
            PrintItem::Value(e) => self.push_number(given.value(e, at)),
            PrintItem::Whole(variable) => self.push_array(program, *variable, given, at),
            PrintItem::Text(characters) => self.push_text(characters),
        }
    }

    // The elements of the array with this number, from 1.
    fn push_array(
        &mut self,
        program: &Program,
        variable: u32,
        given: &Given,
        at: &mut usize,
    ) -> Result<(), AllocError>
        requires low { 1 ≤ variable }
        requires high { variable ≤ length (tree_of program.now).variables }
        requires loads { element_count (bounds_of (tree_of program.now) variable) ≤ length
            (drop at.old given.now.loaded.now) }
        ensures text { OnOk result (self.new.bytes ≡ self.old.bytes
            ++ flat_map number_text (take (element_count (bounds_of (tree_of program.now) variable))
            (drop at.old given.now.loaded.now))) }
        ensures rest { OnOk result (drop at.new given.now.loaded.now
            ≡ drop (element_count (bounds_of (tree_of program.now) variable))
            (drop at.old given.now.loaded.now)) }
        ensures fits { length self.old.bytes + 21 * element_count
            (bounds_of (tree_of program.now) variable) ≤ self.old.room → IsOk result }
        ensures grown { length self.new.bytes ≤ length self.old.bytes + 21 * element_count
            (bounds_of (tree_of program.now) variable) }
        ensures room { self.old.room ≤ self.new.room }
    {
        let count = program.variables[variable as usize - 1].element_count() as usize;
        self.push_numbers(&given.loaded[*at..][..count])?;
        *at += count;
        Ok(())
    }

    // Numbers, a blank in front of each.
    fn push_numbers(&mut self, values: &[i64]) -> Result<(), AllocError>
        ensures text { OnOk result (self.new.bytes ≡ self.old.bytes
            ++ flat_map number_text values.now) }
        ensures fits { length self.old.bytes + 21 * length values.now ≤ self.old.room
            → IsOk result }
        ensures grown { length self.new.bytes ≤ length self.old.bytes + 21 * length values.now }
        ensures room { self.old.room ≤ self.new.room }
    {
        for value in values {
            self.push_number(*value)?;
        }
        Ok(())
    }
}
