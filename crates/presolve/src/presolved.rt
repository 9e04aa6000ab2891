// A system without rows and columns that play no part.

use crate::renumbering::{Untold, kept_certificate, whole_certificate, whole_number};
use farkas_cert::{CertRefusal, Certificate, NarrowSystem, Row, Rows, System, check_cert};
use std::alloc::{AllocError, Global};
use std::marker::Model;
use std::mem;

/// What a certificate of the whole system comes to.
#[derive(Clone, Copy, Debug, PartialEq, Eq)]
pub enum Checked {
    /// It is good.
    Good,
    /// Its first fault.
    Bad(CertRefusal),
    /// It names the row with this number, from 1, which is left out: nothing is found.
    LeftOut(u64),
}

/// A system without rows and columns that play no part.
#[derive(Drop)]
pub struct Presolved {
    // Of the whole system: how many unknowns and rows it has.
    vars: u32,
    count: u64,
    // The columns that are kept, by their places from 0, and the rows, by their numbers from 1.
    columns: Vec<u32>,
    numbers: Vec<u64>,
    // What is left.
    system: System,
}

impl Model for Presolved {
    ghost use Rattle.std.specs.Prelude.{◌≡◌, ◌≤◌, ◌<◌, ◌^◌, length};
    ghost use Rattle.farkas_cert.specs.Narrow.{AreNarrow};
    ghost use Rattle.presolve.specs.Presolution.{Presolution};

    ghost Value = { Presolution };

    ghost view = { λ p. record {
      vars = p.vars;
      count = p.count;
      columns = p.columns.items;
      numbers
          = p.numbers.items;
      system = p.system;
    } };

    ghost invariant = { λ p. AreNarrow p.system.rows × (length p.numbers.items
        ≡ length p.system.rows) × (length p.numbers.items ≤ p.count) × (p.count < 2 ^ 63) };
}

impl Presolved {
    ghost use Rattle.std.specs.Prelude.{◌≡◌, ◌+◌, ◌-◌, ◌≤◌, ◌<◌, ◌^◌, IfOk, OnErr, OnOk, length};
    ghost use Rattle.farkas_cert.specs.Good.{IsGood};
    ghost use Rattle.farkas_cert.specs.Inequalities.{Inequalities};
    ghost use Rattle.farkas_cert.specs.Narrow.{AreNarrow, IsNarrowRow};
    ghost use Rattle.presolve.specs.Answers.{IsAnswer, IsAnswerTo};
    ghost use Rattle.presolve.specs.Columns.{whole_entry as entry_in_whole};
    ghost use Rattle.presolve.specs.Presolution.{IsPresolved, first_kept, with_last};
    ghost use Rattle.presolve.specs.Renamed.{fault_in_64};

    /// What is left of a system over so many unknowns with so many rows, where the columns with
    /// these places, from 0, and the rows with these numbers, from 1, are kept.
    pub fn new(
        vars: u32,
        count: u64,
        columns: Vec<u32>,
        numbers: Vec<u64>,
        system: NarrowSystem,
    ) -> Self
        requires rows { length numbers.items ≡ length system.rows }
        requires within { length numbers.items ≤ count }
        requires room { count < 2 ^ 63 }
        ensures { result ≡ record {
          vars = vars;
          count = count;
          columns = columns.items;
          numbers =
              numbers.items;
          system = system;
        } }
    {
        Presolved {
            vars,
            count,
            columns,
            numbers,
            system: system.into_system(),
        }
    }

    /// The system that is left.
    pub fn system(&self) -> &System
        ensures system { result.now ≡ self.now.system }
        ensures narrow { AreNarrow self.now.system.rows }
    {
        &self.system
    }

    /// The columns that are kept, by their places from 0.
    pub fn columns(&self) -> &[u32]
        ensures { result.now ≡ self.now.columns }
    {
        self.columns.as_slice()
    }

    /// How many rows are kept.
    pub fn kept(&self) -> usize
        ensures kept { result ≡ length self.now.numbers }
        ensures rows { result ≡ length self.now.system.rows }
    {
        self.numbers.len()
    }

    /// One row more at the end of the whole system, which is kept: here it has the columns that are
    /// kept alone. Where memory runs out nothing has changed.
    pub fn push(&mut self, row: Row) -> Result<(), AllocError>
        requires full { length row.coefs ≡ self.old.system.vars }
        requires narrow { IsNarrowRow row }
        requires room { self.old.count + 1 < 2 ^ 63 }
        ensures ok { OnOk result (self.new ≡ with_last row self.old) }
        ensures err { OnErr result (self.new ≡ self.old) }
    {
        self.numbers.push(self.count + 1)?;
        if let Err(error) = self.system.push(row) {
            self.numbers.pop();
            return Err(error);
        }
        self.count += 1;
        Ok(())
    }

    /// Leaves the first so many rows that are kept.
    pub fn truncate(&mut self, alloc: Global, kept: usize)
        requires kept { kept ≤ length self.old.numbers }
        ensures { self.new ≡ first_kept kept self.old }
    {
        let system = mem::replace(&mut self.system, System::empty(alloc, 0));
        let vars = system.vars();
        let mut rows = system.into_rows().into_vec();
        rows.truncate(kept);
        self.system = System::new(vars, Rows::from_vec(rows));
        self.count -= (self.numbers.len() - kept) as u64;
        self.numbers.truncate(kept);
    }

    /// A certificate of the system that is left, told of the whole one.
    pub fn postsolve(
        &self,
        alloc: Global,
        certificate: Certificate,
    ) -> Result<Certificate, AllocError>
        ensures { (whole : Inequalities) → IsPresolved whole self.now
            → IsGood self.now.system certificate → IfOk result (IsGood whole) }
    {
        whole_certificate(alloc, self.count, self.numbers.as_slice(), &certificate)
    }

    /// What a certificate of the whole system comes to: its first fault there, if it has one, unless
    /// it names a row that is left out.
    pub fn check(&self, alloc: Global, certificate: &Certificate) -> Result<Checked, AllocError>
        ensures { (whole : Inequalities) → IsPresolved whole self.now
            → IfOk result (IsAnswer whole self.now certificate.now) }
    {
        match kept_certificate(alloc, self.count, self.numbers.as_slice(), certificate) {
            Ok(kept) => self.check_kept(alloc, &kept),
            Err(Untold::LeftOut(number)) => Ok(Checked::LeftOut(number)),
            Err(Untold::NoMemory) => Err(AllocError),
        }
    }

    // What a certificate of the system that is left comes to, told of the whole one.
    fn check_kept(&self, alloc: Global, kept: &Certificate) -> Result<Checked, AllocError>
        ensures { IfOk result (IsAnswerTo self.now kept.now) }
    {
        match check_cert(alloc, &self.system, kept) {
            Ok(()) => Ok(Checked::Good),
            Err(CertRefusal::NoMemory) => Err(AllocError),
            Err(fault) => Ok(Checked::Bad(self.whole_fault(fault))),
        }
    }

    // The entry, from 1, in the whole system.
    fn whole_entry(&self, entry: u64) -> u64
        ensures { result ≡ entry_in_whole self.now.vars self.now.columns (entry - 1) + 1 }
    {
        let place = entry.saturating_sub(1);
        if place < self.columns.len() as u64 {
            u64::from(self.columns[place as usize]) + 1
        } else {
            u64::from(self.vars) + 1
        }
    }

    // A fault of the system that is left, told of the whole one.
    fn whole_fault(&self, fault: CertRefusal) -> CertRefusal
        ensures { result ≡ fault_in_64 self.now fault }
    {
        match fault {
            CertRefusal::Wide(step, entry) => CertRefusal::Wide(step, self.whole_entry(entry)),
            CertRefusal::NoContradiction(row) => {
                let row = whole_number(self.count, self.numbers.as_slice(), row);
                CertRefusal::NoContradiction(row)
            }
            other => other,
        }
    }
}
