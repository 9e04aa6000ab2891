// Systems of linear inequalities.

ghost use Rattle.std.specs.Prelude.{◌≡◌, ◌+◌, ◌++◌, [], ◌∷◌, OnOk, OnErr, IfOk, IsTrue, pos, ◌≤ℤ◌, int_div, int_rem, map, length};
ghost use Rattle.std.specs.Ordering.{int_eq};
ghost use Rattle.std.specs.List.{list_all};
ghost use Rattle.farkas_cert.specs.Units.{RoseWithin};

use cert_arithmetic::Steps;
use cert_arithmetic::division::divide_all;
use smallvec::SmallVec;
use std::alloc::{AllocError, Global};
use std::marker::Model;
use std::sync::ledger::Ledger;

/// How many coefficients a row keeps with no memory of its own.
pub const INLINE: usize = 4;

// How many rows the first one brings room for: a system of a plan has some 30 or 40.
const ROOM: usize = 40;

/// The coefficients of a row, from the first variable on. Contracts see the list of them.
#[derive(Drop)]
pub struct Coefs {
    items: SmallVec<i128, INLINE, Global>,
}

impl Model for Coefs {
    ghost use Rattle.std.specs.Prelude.{List, ℤ};

    ghost Value = { List ℤ };

    ghost view = { λ c. c.items.items };
}

impl Coefs {
    /// No coefficient yet, with room for so many. The room is a matter of cost alone: no clause
    /// tells it.
    pub fn with_capacity(alloc: Global, capacity: usize) -> Result<Self, AllocError>
        ensures { IfOk result (λ coefs. coefs ≡ []) }
    {
        Ok(Coefs {
            items: SmallVec::with_capacity(alloc, capacity)?,
        })
    }

    /// No coefficient. It takes no memory.
    pub(crate) fn none(alloc: Global) -> Self
        ensures { result ≡ [] }
    {
        Coefs {
            items: SmallVec::new(alloc),
        }
    }

    /// These coefficients.
    pub fn from_slice(alloc: Global, coefs: &[i128]) -> Result<Self, AllocError>
        ensures { IfOk result (λ copy. copy ≡ coefs.now) }
    {
        Ok(Coefs {
            items: SmallVec::from_slice(alloc, coefs)?,
        })
    }

    /// The coefficients of a vector. It takes no memory.
    pub fn from_items(items: SmallVec<i128, INLINE, Global>) -> Self
        ensures { result ≡ items.items }
    {
        Coefs { items }
    }

    /// The vector of the coefficients. It takes no memory.
    pub fn into_items(self) -> SmallVec<i128, INLINE, Global>
        ensures { result.items ≡ self }
    {
        let Coefs { items } = self;
        items
    }

    /// The coefficients, in order.
    pub fn as_slice(&self) -> &[i128]
        ensures { result.now ≡ self.now }
    {
        self.items.as_slice()
    }

    /// One more coefficient at the end. Where memory runs out nothing has changed.
    pub fn push(&mut self, coef: i128) -> Result<(), AllocError>
        ensures ok { OnOk result (self.new ≡ self.old ++ coef ∷ []) }
        ensures err { OnErr result (self.new ≡ self.old) }
    {
        self.items.push(coef)?;
        Ok(())
    }

    /// Divides each coefficient, if the divisor divides them all. Where it doesn't, some are
    /// divided.
    pub(crate) fn divide<L: Ledger>(&mut self, divisor: i128, steps: &mut Steps<L>) -> bool
        requires { pos 1 ≤ℤ divisor }
        ensures all { result ≡ list_all (λ a. int_eq (int_rem a divisor) (pos 0)) self.old }
        ensures quotients { IsTrue result → self.new ≡ map (λ a. int_div a divisor) self.old }
        ensures units { RoseWithin (length self.old) steps.old steps.new }
        ensures each { IsTrue result → steps.new ≡ steps.old + length self.old }
    {
        divide_all(self.items.as_mut_slice(), divisor, steps)
    }
}

/// The inequality `coefs . x <= bound`.
#[derive(Drop)]
pub struct Row {
    pub coefs: Coefs,
    pub bound: i128,
}

impl Row {
    /// The same row.
    pub fn copy(&self, alloc: Global) -> Result<Self, AllocError>
        ensures { IfOk result (λ copy. copy ≡ self.now) }
    {
        Ok(Row {
            coefs: Coefs::from_slice(alloc, self.coefs.as_slice())?,
            bound: self.bound,
        })
    }
}

/// Rows, numbered from 1. Contracts see the list of them.
#[derive(Drop)]
pub struct Rows {
    items: Vec<Row>,
}

impl Model for Rows {
    ghost use Rattle.std.specs.Prelude.{List};
    ghost use Rattle.farkas_cert.specs.declared.system.Row.{Row};

    ghost Value = { List Row };

    ghost view = { λ r. r.items.items };
}

impl Rows {
    /// No row.
    pub fn new(alloc: Global) -> Self
        ensures { result ≡ [] }
    {
        Rows {
            items: Vec::new(alloc),
        }
    }

    /// One more row at the end. Where memory runs out nothing has changed.
    pub fn push(&mut self, row: Row) -> Result<(), AllocError>
        ensures ok { OnOk result (self.new ≡ self.old ++ row ∷ []) }
        ensures err { OnErr result (self.new ≡ self.old) }
    {
        if self.items.is_empty() {
            self.items.reserve(ROOM)?;
        }
        self.items.push(row)?;
        Ok(())
    }

    /// The rows of a vector. It takes no memory.
    pub fn from_vec(items: Vec<Row>) -> Self
        ensures { result ≡ items.items }
    {
        Rows { items }
    }

    /// The vector of the rows. It takes no memory.
    pub fn into_vec(self) -> Vec<Row>
        ensures { result.items ≡ self }
    {
        let Rows { items } = self;
        items
    }

    /// The rows, in order.
    pub fn as_slice(&self) -> &[Row]
        ensures { result.now ≡ self.now }
    {
        self.items.as_slice()
    }
}

/// A system of inequalities over so many variables: each row has a coefficient for each of
/// them. Contracts see the number of variables and the list of rows.
#[derive(Drop)]
pub struct System {
    vars: u32,
    rows: Rows,
}

impl Model for System {
    ghost use Rattle.farkas_cert.specs.Inequalities.{Inequalities, AreFull};

    ghost Value = { Inequalities };

    ghost view = { λ s. record { vars = s.vars; rows = s.rows } };

    ghost invariant = { λ s. AreFull s.vars s.rows };
}

impl System {
    ghost use Rattle.farkas_cert.specs.Inequalities.{Inequalities, AreFull};

    /// The system of these rows, each of which has a coefficient for each variable.
    pub fn new(vars: u32, rows: Rows) -> Self
        requires { AreFull vars rows }
        ensures { result ≡ record { vars = vars; rows = rows } }
    {
        System { vars, rows }
    }

    /// The system over so many variables with no row.
    pub fn empty(alloc: Global, vars: u32) -> Self
        ensures { result ≡ record { vars = vars; rows = [] } }
    {
        System {
            vars,
            rows: Rows::new(alloc),
        }
    }

    /// The same system.
    pub fn copy(&self, alloc: Global) -> Result<Self, AllocError>
        ensures { IfOk result (λ copy. copy ≡ self.now) }
    {
        let mut copy = System::empty(alloc, self.vars());
        for row in self.rows() {
            copy.push(row.copy(alloc)?)?;
        }
        Ok(copy)
    }

    /// One more row at the end. Where memory runs out nothing has changed.
    pub fn push(&mut self, row: Row) -> Result<(), AllocError>
        requires { length row.coefs ≡ self.old.vars }
        ensures ok { OnOk result (self.new ≡ record {
          vars = self.old.vars;
          rows = self.old.rows
              ++ row ∷ [];
        }) }
        ensures err { OnErr result (self.new ≡ self.old) }
    {
        self.rows.push(row)
    }

    /// How many variables there are.
    pub fn vars(&self) -> u32
        ensures { result ≡ self.now.vars }
    {
        self.vars
    }

    /// The rows, in order.
    pub fn rows(&self) -> &[Row]
        ensures rows { result.now ≡ self.now.rows }
        ensures full { AreFull self.now.vars self.now.rows }
    {
        self.rows.as_slice()
    }

    /// The rows themselves. It takes no memory.
    pub fn into_rows(self) -> Rows
        ensures rows { result ≡ self.rows }
        ensures full { AreFull self.vars self.rows }
    {
        let System { vars: _, rows } = self;
        rows
    }
}
