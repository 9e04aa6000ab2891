// What is known at a statement, by the statements in front of it.

ghost use Rattle.std.specs.Prelude.{◌≡◌, ◌≤◌, ◌++◌, [], ◌∷◌, length, IfSome, OnOk};

use crate::arrays::Arrays;
use crate::constants::Constants;
use crate::names::Names;
use crate::opened::Opened;
use nest_tree::Parameter;
use std::alloc::{AllocError, Global};
use std::marker::Model;

/// What is known at a statement. Contracts see the scene that the definitions speak of.
#[derive(Drop)]
pub struct Known {
    executes: bool,
    labels: Vec<u32>,
    names: Names,
    integers: Names,
    constants: Constants,
    arrays: Arrays,
    scalars: Names,
    loop_variables: Names,
    loops: u32,
    // The innermost first.
    opened: Vec<Opened>,
}

impl Model for Known {
    ghost use Rattle.std.specs.Prelude.{length, map};
    ghost use Rattle.f77_scene.specs.Scene.{Scene};
    ghost use Rattle.f77_program.specs.Known.{open_of};

    ghost Value = { Scene };

    ghost view = { λ k. record {
      count = length k.labels.items;
      executes = k.executes;
      labels =
          k.labels.items;
      names = k.names;
      integers = k.integers;
      constants = k.constants;
      arrays =
          k.arrays;
      scalars = k.scalars;
      loop_variables = k.loop_variables;
      loops = k.loops;
      opened =
          map open_of k.opened.items;
    } };
}

impl Known {
    ghost use Rattle.f77_scene.specs.Scene.{first_scene, is_among, is_array, is_constant_name, is_function, is_open, constant_names, value_named, bounds_named};
    ghost use Rattle.std.specs.Prelude.{◌==◌, map, ◌++◌, [], ◌∷◌, OnOk};
    ghost use Rattle.std.specs.List.{list_any};
    ghost use Rattle.f77_program.specs.Known.{open_of, opened_as};
    ghost use Rattle.std.specs.Prelude.{IfOk};
    ghost use Rattle.nest_tree.specs.View.{constant_of};
    ghost use Rattle.f77_program.specs.Numbered.{numbered, texts_of};

    /// What is known in front of the first statement.
    pub fn new(alloc: Global) -> Self
        ensures { result ≡ first_scene }
    {
        Known {
            executes: false,
            labels: Vec::new(alloc),
            names: Names::new(alloc),
            integers: Names::new(alloc),
            constants: Constants::new(alloc),
            arrays: Arrays::new(alloc),
            scalars: Names::new(alloc),
            loop_variables: Names::new(alloc),
            loops: 0,
            opened: Vec::new(alloc),
        }
    }

    /// How many statements stand in front.
    pub fn count(&self) -> usize
        ensures { result ≡ self.now.count }
    {
        self.labels.len()
    }

    /// How many loops have begun.
    pub fn loops(&self) -> u32
        ensures { result ≡ self.now.loops }
    {
        self.loops
    }

    /// How many loops are open.
    pub fn depth(&self) -> usize
        ensures { result ≡ length self.now.opened }
    {
        self.opened.len()
    }

    /// Whether an executable statement stands in front.
    pub fn executes(&self) -> bool
        ensures { result ≡ self.now.executes }
    {
        self.executes
    }

    /// Whether a statement in front has this label.
    pub fn has_label(&self, label: u32) -> bool
        ensures { result ≡ list_any (λ l. l == label) self.now.labels }
    {
        self.labels.iter().any(|l| *l == label)
    }

    /// All names, in the order of their first appearance.
    pub fn names(&self) -> &[Vec<u8>]
        ensures { texts_of result.now ≡ self.now.names }
    {
        self.names.as_slice()
    }

    /// The named constants, in the order of their definitions.
    pub fn parameters(&self, alloc: Global) -> Result<Vec<Parameter>, AllocError>
        ensures { IfOk result (λ ps. map constant_of ps.items ≡ self.now.constants) }
    {
        self.constants.parameters(alloc)
    }

    /// The open loops, the innermost first.
    pub fn opened(&self) -> &[Opened]
        ensures { map open_of result.now ≡ self.now.opened }
    {
        self.opened.as_slice()
    }

    /// Whether this is the name of a PARAMETER statement.
    pub fn is_constant(&self, name: &[u8]) -> bool
        ensures { result ≡ is_constant_name self.now name.now }
    {
        self.constants.contains(name)
    }

    /// The number of the named constant, from 1.
    pub fn constant_number(&self, name: &[u8]) -> Option<u32>
        ensures number { result ≡ numbered (constant_names self.now) name.now }
        ensures counted { IfSome result (λ k. 1 ≤ k) }
    {
        self.constants.number(name)
    }

    /// The value of the named constant, 0 for any other name.
    pub fn constant_value(&self, name: &[u8]) -> i64
        ensures { result ≡ value_named self.now.constants name.now }
    {
        self.constants.value(name)
    }

    /// One more named constant.
    pub fn define(&mut self, alloc: Global, name: &[u8], value: i64) -> Result<(), AllocError>
        ensures { OnOk result (self.new ≡ record self.old {
          constants = self.old.constants
              ++ record { name = name.now; value = value } ∷ [];
        }) }
    {
        self.constants.push(alloc, name, value)?;
        Ok(())
    }

    /// Whether an array has this name.
    pub fn is_array(&self, name: &[u8]) -> bool
        ensures { result ≡ is_array self.now name.now }
    {
        self.arrays.contains(name)
    }

    /// The bounds of the array of this name; none where there is no such array.
    pub fn bounds(&self, name: &[u8]) -> &[(i64, i64)]
        ensures { result.now ≡ bounds_named self.now.arrays name.now }
    {
        self.arrays.bounds(name)
    }

    /// Whether this is MIN or MAX, and no array has that name.
    pub fn is_function(&self, name: &[u8]) -> bool
        ensures { result ≡ is_function self.now name.now }
    {
        (name == b"MIN".as_slice() || name == b"MAX".as_slice()) && !self.is_array(name)
    }

    /// The number of the loop round this place with this variable.
    pub fn loop_number(&self, name: &[u8]) -> Option<u32>
        ensures number { result ≡ opened_as self.now.opened name.now }
        ensures counted { IfSome result (λ k. 1 ≤ k) }
    {
        loop_number(self.opened.as_slice(), name)
    }

    /// Whether this is the variable of a loop round this place.
    pub fn is_open(&self, name: &[u8]) -> bool
        ensures { result ≡ is_open self.now name.now }
    {
        self.loop_number(name).is_some()
    }

    /// Whether this is the variable of a loop.
    pub fn is_loop_variable(&self, name: &[u8]) -> bool
        ensures { result ≡ is_among self.now.loop_variables name.now }
    {
        self.loop_variables.contains(name)
    }

    /// Whether this is used as a scalar.
    pub fn is_scalar(&self, name: &[u8]) -> bool
        ensures { result ≡ is_among self.now.scalars name.now }
    {
        self.scalars.contains(name)
    }

    /// Whether an INTEGER statement in front has this name.
    pub fn is_integer(&self, name: &[u8]) -> bool
        ensures { result ≡ is_among self.now.integers name.now }
    {
        self.integers.contains(name)
    }
}

impl Known {
    ghost use Rattle.std.specs.Prelude.{◌≡◌, ◌+◌, ◌<◌, ◌^◌, ◌++◌, [], ◌∷◌, true, OnOk, map};
    ghost use Rattle.f77_forms.specs.View as view;
    ghost use Rattle.f77_scene.specs.Scene.{with_names};
    ghost use Rattle.f77_scene.specs.Tests.{left_open};
    ghost use Rattle.f77_program.specs.Pieces.{names_view};

    /// The statement is counted with its label, and these names are known.
    pub fn note(&mut self, alloc: Global, label: u32, names: &[&[u8]]) -> Result<(), AllocError>
        ensures { OnOk result (self.new ≡ record self.old {
          count = self.old.count + 1;
          labels =
              self.old.labels ++ label ∷ [];
          names = with_names self.old.names (names_view names.now);
        }) }
    {
        self.labels.push(label)?;
        self.names.add_all(alloc, names)?;
        Ok(())
    }

    /// These are names of INTEGER statements.
    pub fn declare_integers(&mut self, alloc: Global, names: &[&[u8]]) -> Result<(), AllocError>
        ensures { OnOk result (self.new ≡ record self.old {
          integers = self.old.integers
              ++ names_view names.now;
        }) }
    {
        self.integers.push_all(alloc, names)?;
        Ok(())
    }

    /// One more array.
    pub fn declare_array(
        &mut self,
        alloc: Global,
        name: &[u8],
        bounds: Vec<(i64, i64)>,
    ) -> Result<(), AllocError>
        ensures { OnOk result (self.new ≡ record self.old {
          arrays = self.old.arrays
              ++ record { name = name.now; bounds = bounds.items } ∷ [];
        }) }
    {
        self.arrays.push(alloc, name, bounds)?;
        Ok(())
    }

    /// No loop has begun. What else is known stays so.
    pub fn rewind(&mut self)
        ensures { self.new ≡ record self.old { loops = 0; opened = [] } }
    {
        self.loops = 0;
        self.opened.clear();
    }

    /// Behind a DO statement with this variable and this label its loop is open.
    pub fn open(&mut self, alloc: Global, variable: &[u8], label: u64) -> Result<(), AllocError>
        requires { self.old.loops < 2 ^ 31 }
        ensures { OnOk result (self.new ≡ record self.old {
          executes = true;
          loop_variables =
              self.old.loop_variables ++ variable.now ∷ [];
          loops = self.old.loops + 1;
          opened =
              record { variable = variable.now; label = label; number = self.old.loops + 1 }
              ∷ self.old.opened;
        }) }
    {
        self.loop_variables.push(alloc, variable)?;
        let opened = Opened {
            variable: Vec::from_slice(alloc, variable)?,
            label,
            number: self.loops + 1,
        };
        self.opened.insert(0, opened)?;
        self.loops += 1;
        self.executes = true;
        Ok(())
    }

    /// Behind another executable statement these are scalars, and the loops that end with its
    /// label are closed.
    pub fn execute(
        &mut self,
        alloc: Global,
        label: u32,
        scalars: &[&[u8]],
    ) -> Result<(), AllocError>
        ensures { OnOk result (self.new ≡ record self.old {
          executes = true;
          scalars = with_names
              self.old.scalars (names_view scalars.now);
          opened = left_open label self.old.opened;
        }) }
    {
        self.scalars.add_all(alloc, scalars)?;
        self.executes = true;
        close(label, &mut self.opened);
        Ok(())
    }
}

ghost use Rattle.std.specs.Prelude.{map};
ghost use Rattle.f77_scene.specs.Tests as tests;
ghost use Rattle.f77_program.specs.Known as known;
ghost use Rattle.f77_program.specs.Known.{open_of, opened_as};

/// The number of the loop with this variable, if one of these has it.
fn loop_number(opened: &[Opened], name: &[u8]) -> Option<u32>
    ensures number { result ≡ opened_as (map open_of opened.now) name.now }
    ensures counted { IfSome result (λ k. 1 ≤ k) }
{
    for open in opened {
        if open.variable.as_slice() == name {
            return Some(open.number);
        }
    }
    None
}

/// The loops that end with this label are closed, the innermost first.
fn close(label: u32, opened: &mut Vec<Opened>)
    ensures { map open_of opened.new.items ≡ tests.left_open label (map open_of opened.old.items) }
{
    while ends_first(label, opened.as_slice()) {
        opened.remove(0);
    }
}

/// Whether the innermost of these loops ends with this label.
fn ends_first(label: u32, opened: &[Opened]) -> bool
    ensures { result ≡ known.ends_first label (map open_of opened.now) }
{
    match opened {
        [first, ..] => first.label == u64::from(label),
        [] => false,
    }
}
