// Certificates, and why one is refused.

ghost use Rattle.std.specs.Prelude.{◌≡◌, IfOk};
ghost use Rattle.farkas_cert.specs.declared.certificate.CertRefusal.TheVariants.{NoMemory};

use std::alloc::{AllocError, AllocFailed, Global};
use std::marker::Model;
use thiserror::Error;

/// The terms of a step, in order: the number of a row, from 1, and its multiplier. Contracts see
/// the list of them.
#[derive(Drop)]
pub struct Terms {
    items: Vec<(u64, i128)>,
}

impl Model for Terms {
    ghost use Rattle.std.specs.Prelude.{List, ℕ, ℤ};

    ghost Value = { List (ℕ × ℤ) };

    ghost view = { λ t. t.items.items };
}

impl Terms {
    /// The terms of a vector. It takes no memory.
    pub fn from_vec(items: Vec<(u64, i128)>) -> Self
        ensures { result ≡ items.items }
    {
        Terms { items }
    }

    /// The vector of the terms. It takes no memory.
    pub fn into_vec(self) -> Vec<(u64, i128)>
        ensures { result.items ≡ self }
    {
        let Terms { items } = self;
        items
    }

    /// The terms, in order.
    pub fn as_slice(&self) -> &[(u64, i128)]
        ensures { result.now ≡ self.now }
    {
        self.items.as_slice()
    }
}

/// A step: the sum of its terms over rows that stand before it, divided by the divisor, the
/// bound rounded down.
#[derive(Drop)]
pub struct Step {
    pub divisor: i128,
    pub terms: Terms,
}

impl Step {
    /// The same step.
    pub fn copy(&self, alloc: Global) -> Result<Self, AllocError>
        ensures { IfOk result (λ copy. copy ≡ self.now) }
    {
        let terms = Vec::from_slice(alloc, self.terms.as_slice())?;
        Ok(Step {
            divisor: self.divisor,
            terms: Terms::from_vec(terms),
        })
    }
}

/// Steps, numbered from 1. Contracts see the list of them.
#[derive(Drop)]
pub struct StepList {
    items: Vec<Step>,
}

impl Model for StepList {
    ghost use Rattle.std.specs.Prelude.{List};
    ghost use Rattle.farkas_cert.specs.declared.certificate.Step.{Step};

    ghost Value = { List Step };

    ghost view = { λ s. s.items.items };
}

impl StepList {
    /// The steps of a vector. It takes no memory.
    pub fn from_vec(items: Vec<Step>) -> Self
        ensures { result ≡ items.items }
    {
        StepList { items }
    }

    /// The vector of the steps. It takes no memory.
    pub fn into_vec(self) -> Vec<Step>
        ensures { result.items ≡ self }
    {
        let StepList { items } = self;
        items
    }

    /// The steps, in order.
    pub fn as_slice(&self) -> &[Step]
        ensures { result.now ≡ self.now }
    {
        self.items.as_slice()
    }
}

/// A certificate: the rows of a system, numbered from 1, are followed by the row that each step
/// makes.
#[derive(Drop)]
pub struct Certificate {
    pub steps: StepList,
}

impl Certificate {
    /// The same certificate.
    pub fn copy(&self, alloc: Global) -> Result<Self, AllocError>
        ensures { IfOk result (λ copy. copy ≡ self.now) }
    {
        let given = self.steps.as_slice();
        let mut steps = Vec::with_capacity(alloc, given.len())?;
        for step in given {
            steps.push(step.copy(alloc)?)?;
        }
        Ok(Certificate {
            steps: StepList::from_vec(steps),
        })
    }
}

/// Why a certificate is refused. Steps are numbered from 1, and rows too, those of the system
/// first.
#[derive(Clone, Copy, Debug, PartialEq, Eq, Error)]
pub enum CertRefusal {
    /// A multiplier of this step is below 0.
    #[error("step {0} has a negative multiplier")]
    NegativeMultiplier(u64),
    /// This step names a row with the number 0, or one that doesn't stand before it.
    #[error("step {0} names a row that does not stand before it")]
    BadRow(u64),
    /// The divisor of this step is below 1, or doesn't divide each coefficient.
    #[error("step {0} has a divisor that does not divide each coefficient")]
    BadDivisor(u64),
    /// In this step, at this entry (1 to the number of variables for the coefficients, then the
    /// bound), a product or a running sum passes 2 ^ 126 in size.
    #[error("step {0} has too large a number at entry {1}")]
    Wide(u64, u64),
    /// The last row, of this number (0 where there is none), is no contradiction.
    #[error("row {0}, the last one, is no contradiction")]
    NoContradiction(u64),
    /// Memory ran out. It says nothing of the certificate.
    #[error("out of memory")]
    NoMemory,
}

impl From<AllocError> for CertRefusal {
    ghost from_gives = { λ _ refusal. refusal ≡ NoMemory };

    fn from(_error: AllocError) -> CertRefusal {
        CertRefusal::NoMemory
    }
}

impl<T: Drop> From<AllocFailed<T>> for CertRefusal {
    ghost from_gives = { λ _ refusal. refusal ≡ NoMemory };

    fn from(_failed: AllocFailed<T>) -> CertRefusal {
        CertRefusal::NoMemory
    }
}
