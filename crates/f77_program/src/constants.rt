// Named constants and arrays.

ghost use Rattle.std.specs.Prelude.{◌≡◌, ◌≤◌, ◌++◌, [], ◌∷◌, OnOk, OnErr, IfSome};

use crate::names::Names;
use nest_tree::Parameter;
use std::alloc::{AllocError, Global};
use std::marker::Model;

/// The names of PARAMETER statements with their values, in the order in which they came.
/// Contracts see the list.
#[derive(Drop)]
pub struct Constants {
    names: Names,
    values: Vec<i64>,
}

impl Model for Constants {
    ghost use Rattle.std.specs.Prelude.{◌≡◌, List, length};
    ghost use Rattle.nest_tree.specs.Tree.{Constant};
    ghost use Rattle.f77_program.specs.Known.{constants_from};

    ghost Value = { List Constant };

    ghost view = { λ c. constants_from c.names c.values.items };

    ghost invariant = { λ c. length c.names ≡ length c.values.items };
}

impl Constants {
    ghost use Rattle.f77_scene.specs.Scene.{is_among, value_named};
    ghost use Rattle.f77_program.specs.Known.{names_of_constants};
    ghost use Rattle.std.specs.Prelude.{IfOk, map};
    ghost use Rattle.nest_tree.specs.View.{constant_of};
    ghost use Rattle.f77_program.specs.Numbered.{numbered};

    /// No constant yet.
    pub fn new(alloc: Global) -> Self
        ensures { result ≡ [] }
    {
        Constants {
            names: Names::new(alloc),
            values: Vec::new(alloc),
        }
    }

    /// Whether a constant has this name.
    pub fn contains(&self, name: &[u8]) -> bool
        ensures { result ≡ is_among (names_of_constants self.now) name.now }
    {
        self.names.contains(name)
    }

    /// The number of the constant of this name, from 1.
    pub fn number(&self, name: &[u8]) -> Option<u32>
        ensures number { result ≡ numbered (names_of_constants self.now) name.now }
        ensures counted { IfSome result (λ k. 1 ≤ k) }
    {
        self.names.number(name)
    }

    /// The value of the constant of this name, 0 where there is none.
    pub fn value(&self, name: &[u8]) -> i64
        ensures { result ≡ value_named self.now name.now }
    {
        match self.names.number(name) {
            Some(number) => self.values[number as usize - 1],
            None => 0,
        }
    }

    /// One more constant. Where memory runs out nothing has changed.
    pub fn push(&mut self, alloc: Global, name: &[u8], value: i64) -> Result<(), AllocError>
        ensures ok { OnOk result (self.new ≡ self.old ++ record { name = name.now; value = value }
            ∷ []) }
        ensures err { OnErr result (self.new ≡ self.old) }
    {
        self.values.push(value)?;
        match self.names.push(alloc, name) {
            Ok(()) => Ok(()),
            Err(err) => {
                self.values.pop();
                Err(err)
            }
        }
    }
    /// The constants with their values, in order.
    pub fn parameters(&self, alloc: Global) -> Result<Vec<Parameter>, AllocError>
        ensures { IfOk result (λ ps. map constant_of ps.items ≡ self.now) }
    {
        parameters_of(alloc, self.names.as_slice(), self.values.as_slice())
    }
}

ghost use Rattle.std.specs.Prelude.{length, map, IfOk};
ghost use Rattle.nest_tree.specs.View as view;
ghost use Rattle.f77_program.specs.Known as known;
ghost use Rattle.f77_program.specs.Numbered as numbered;

// The constants with these names and these values.
fn parameters_of(
    alloc: Global,
    names: &[Vec<u8>],
    values: &[i64],
) -> Result<Vec<Parameter>, AllocError>
    requires { length names.now ≡ length values.now }
    ensures { IfOk result (λ ps. map view.constant_of ps.items
        ≡ known.constants_from (numbered.texts_of names.now) values.now) }
{
    let mut parameters = Vec::new(alloc);
    for (place, name) in names.iter().enumerate() {
        let name = Vec::from_slice(alloc, name)?;
        parameters.push(Parameter {
            name,
            value: values[place],
        })?;
    }
    Ok(parameters)
}
