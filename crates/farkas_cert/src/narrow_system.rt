// Systems whose numbers are narrow.

ghost use Rattle.std.specs.Prelude.{◌≡◌, ◌↔◌, ◌++◌, [], ◌∷◌, OnOk, OnErr, IsSome, IfSome, length};
ghost use Rattle.farkas_cert.specs.Narrow.{IsNarrowRow, AreNarrow};

use crate::narrow::are_narrow_rows;
use crate::system::{Row, System};
use std::alloc::{AllocError, Global};
use std::marker::Model;

/// A system whose coefficients and bounds are at most 2 ^ 126 in size. Contracts see the number of
/// variables and the list of rows.
#[derive(Drop)]
pub struct NarrowSystem {
    system: System,
}

impl Model for NarrowSystem {
    ghost use Rattle.farkas_cert.specs.Inequalities.{Inequalities};
    ghost use Rattle.farkas_cert.specs.Narrow.{AreNarrow};

    ghost Value = { Inequalities };

    ghost view = { λ s. s.system };

    ghost invariant = { λ s. AreNarrow s.system.rows };
}

impl NarrowSystem {
    ghost use Rattle.farkas_cert.specs.Inequalities.{Inequalities};

    /// The system over so many variables with no row.
    pub fn empty(alloc: Global, vars: u32) -> Self
        ensures { result ≡ record { vars = vars; rows = [] } }
    {
        NarrowSystem {
            system: System::empty(alloc, vars),
        }
    }

    /// The system itself, if its coefficients and bounds are at most 2 ^ 126 in size. It takes no
    /// memory.
    pub fn from_system(system: System) -> Option<Self>
        ensures narrow { IsSome result ↔ AreNarrow system.rows }
        ensures system { IfSome result (λ narrow. narrow ≡ system) }
    {
        if are_narrow_rows(system.rows()) {
            Some(NarrowSystem { system })
        } else {
            None
        }
    }

    /// One more row at the end. Where memory runs out nothing has changed.
    pub fn push(&mut self, row: Row) -> Result<(), AllocError>
        requires full { length row.coefs ≡ self.old.vars }
        requires narrow { IsNarrowRow row }
        ensures ok { OnOk result (self.new ≡ record {
          vars = self.old.vars;
          rows = self.old.rows
              ++ row ∷ [];
        }) }
        ensures err { OnErr result (self.new ≡ self.old) }
    {
        self.system.push(row)
    }

    /// The system.
    pub fn as_system(&self) -> &System
        ensures system { result.now ≡ self.now }
        ensures narrow { AreNarrow self.now.rows }
    {
        &self.system
    }

    /// The system itself. It takes no memory.
    pub fn into_system(self) -> System
        ensures system { result ≡ self }
        ensures narrow { AreNarrow self.rows }
    {
        let NarrowSystem { system } = self;
        system
    }
}
