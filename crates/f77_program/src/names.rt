// Lists of names that are looked up.

ghost use Rattle.std.specs.Prelude.{◌≡◌, ◌≤◌, ◌++◌, [], ◌∷◌, OnOk, OnErr, IfSome, map};

use crate::numbers::Numbers;
use std::alloc::{AllocError, Global};
use std::marker::Model;

/// Names, numbered from 1 in the order in which they came. A name may come again; its number is
/// that of its first place. A look-up takes logarithmic time. Contracts see the list.
#[derive(Drop)]
pub struct Names {
    names: Vec<Vec<u8>>,
    numbers: Numbers,
}

impl Model for Names {
    ghost use Rattle.std.specs.Prelude.{ℕ, List};
    ghost use Rattle.f77_program.specs.Numbered.{texts_of, AreNumbered};

    ghost Value = { List (List ℕ) };

    ghost view = { λ n. texts_of n.names.items };

    ghost invariant = { λ n. AreNumbered n.numbers (texts_of n.names.items) };
}

impl Names {
    ghost use Rattle.std.specs.Prelude.{length, ◌≤◌, IfSome, map};
    ghost use Rattle.f77_scene.specs.Scene.{is_among, with_names};
    ghost use Rattle.f77_program.specs.Numbered.{numbered, texts_of};

    /// No name yet.
    pub fn new(alloc: Global) -> Self
        ensures { result ≡ [] }
    {
        Names {
            names: Vec::new(alloc),
            numbers: Numbers::new(alloc),
        }
    }

    /// The names, in order.
    pub fn as_slice(&self) -> &[Vec<u8>]
        ensures { texts_of result.now ≡ self.now }
    {
        self.names.as_slice()
    }

    /// The number of this name, from 1, if it is among these.
    pub fn number(&self, name: &[u8]) -> Option<u32>
        ensures number { result ≡ numbered self.now name.now }
        ensures counted { IfSome result (λ k. 1 ≤ k) }
    {
        self.numbers.number(name)
    }

    /// Whether this name is among these.
    pub fn contains(&self, name: &[u8]) -> bool
        ensures { result ≡ is_among self.now name.now }
    {
        self.number(name).is_some()
    }

    /// One more name at the end. Where memory runs out nothing has changed; a name past number
    /// 2^32 - 1 counts as want of memory.
    pub fn push(&mut self, alloc: Global, name: &[u8]) -> Result<(), AllocError>
        ensures ok { OnOk result (self.new ≡ self.old ++ name.now ∷ []) }
        ensures err { OnErr result (self.new ≡ self.old) }
    {
        if self.names.len() >= u32::MAX as usize {
            return Err(AllocError);
        }
        self.names.push(Vec::from_slice(alloc, name)?)?;
        let number = self.names.len() as u32;
        match self.numbers.put(alloc, name, number) {
            Ok(()) => Ok(()),
            Err(err) => {
                self.names.pop();
                Err(err)
            }
        }
    }

    /// This name among these, if it is not there yet. Where memory runs out nothing has changed.
    pub fn add(&mut self, alloc: Global, name: &[u8]) -> Result<(), AllocError>
        ensures ok { OnOk result (self.new ≡ with_names self.old (name.now ∷ [])) }
        ensures err { OnErr result (self.new ≡ self.old) }
    {
        if self.contains(name) {
            return Ok(());
        }
        self.push(alloc, name)
    }

    /// These names at the end.
    pub fn push_all(&mut self, alloc: Global, names: &[&[u8]]) -> Result<(), AllocError>
        ensures { OnOk result (self.new ≡ self.old ++ map (λ n. n.now) names.now) }
    {
        for name in names {
            self.push(alloc, name)?;
        }
        Ok(())
    }

    /// Of these names those that are not there yet, at the end.
    pub fn add_all(&mut self, alloc: Global, names: &[&[u8]]) -> Result<(), AllocError>
        ensures { OnOk result (self.new ≡ with_names self.old (map (λ n. n.now) names.now)) }
    {
        for name in names {
            self.add(alloc, name)?;
        }
        Ok(())
    }
}
