// Arrays and their bounds.

ghost use Rattle.std.specs.Prelude.{◌≡◌, ◌++◌, [], ◌∷◌, OnOk, OnErr};

use crate::names::Names;
use std::alloc::{AllocError, Global};
use std::marker::Model;

/// Arrays with the lower and the upper bound of each dimension, in the order in which they came.
/// Contracts see the list.
#[derive(Drop)]
pub struct Arrays {
    names: Names,
    bounds: Vec<Vec<(i64, i64)>>,
}

impl Model for Arrays {
    ghost use Rattle.std.specs.Prelude.{◌≡◌, List, length};
    ghost use Rattle.f77_scene.specs.Scene.{Array};
    ghost use Rattle.f77_program.specs.Known.{arrays_from};

    ghost Value = { List Array };

    ghost view = { λ a. arrays_from a.names a.bounds.items };

    ghost invariant = { λ a. length a.names ≡ length a.bounds.items };
}

impl Arrays {
    ghost use Rattle.f77_scene.specs.Scene.{is_among, bounds_named};
    ghost use Rattle.f77_program.specs.Known.{names_of_arrays};

    /// No array yet.
    pub fn new(alloc: Global) -> Self
        ensures { result ≡ [] }
    {
        Arrays {
            names: Names::new(alloc),
            bounds: Vec::new(alloc),
        }
    }

    /// Whether an array has this name.
    pub fn contains(&self, name: &[u8]) -> bool
        ensures { result ≡ is_among (names_of_arrays self.now) name.now }
    {
        self.names.contains(name)
    }

    /// The bounds of the array of this name; none where there is no such array.
    pub fn bounds(&self, name: &[u8]) -> &[(i64, i64)]
        ensures { result.now ≡ bounds_named self.now name.now }
    {
        match self.names.number(name) {
            Some(number) => self.bounds[number as usize - 1].as_slice(),
            None => &[],
        }
    }

    /// One more array. Where memory runs out nothing has changed.
    pub fn push(
        &mut self,
        alloc: Global,
        name: &[u8],
        bounds: Vec<(i64, i64)>,
    ) -> Result<(), AllocError>
        ensures ok { OnOk result (self.new ≡ self.old ++ record {
          name = name.now;
          bounds =
              bounds.items;
        } ∷ []) }
        ensures err { OnErr result (self.new ≡ self.old) }
    {
        self.bounds.push(bounds)?;
        match self.names.push(alloc, name) {
            Ok(()) => Ok(()),
            Err(err) => {
                self.bounds.pop();
                Err(err)
            }
        }
    }
}
