// The numbers of names.

ghost use Rattle.std.specs.Prelude.{◌≡◌, ℕ, List, Some, None, OnOk, OnErr, IsTrue, if◌then◌else◌, is_some, nat_lt, true};
ghost use Rattle.std.specs.BTreeMap.{get};
ghost use Rattle.std.specs.List.{list_all};
ghost use Rattle.std.specs.Option.{option_or};
ghost use Rattle.std.specs.Ordering.{is_eq, nat_cmp};
ghost use Rattle.std.specs.Str.{bytes_eq};
ghost use Rattle.f77_program.specs.Numbered.{is_short, key_of, number_apart};

use std::alloc::{AllocError, Global};
use std::collections::BTreeMap;

/// The numbers of names. A short name is looked up by a number of its own, so that two are compared
/// at once.
#[derive(Drop)]
pub struct Numbers {
    // By the keys of short names.
    short: BTreeMap<u128, u32>,
    // Of all other names.
    others: BTreeMap<Vec<u8>, u32>,
}

impl Numbers {
    ghost use Rattle.std.specs.Prelude.{ℕ, List, Some, None, if◌then◌else◌};
    ghost use Rattle.std.specs.Option.{option_or};
    ghost use Rattle.f77_program.specs.Numbered.{number_under};

    /// No name has one.
    pub fn new(alloc: Global) -> Self
        ensures { (name : List ℕ) → number_under result name ≡ None }
    {
        Numbers {
            short: BTreeMap::new(alloc),
            others: BTreeMap::new(alloc),
        }
    }

    /// The number of this name, where it has one.
    pub fn number(&self, name: &[u8]) -> Option<u32>
        ensures { result ≡ number_under self.now name.now }
    {
        if is_short(name) {
            self.short.get(&key_of(name)).copied()
        } else {
            self.others.get(name).copied()
        }
    }

    /// Gives a name this number where it has none. Where memory runs out nothing has changed.
    pub fn put(&mut self, alloc: Global, name: &[u8], number: u32) -> Result<(), AllocError>
        ensures there { OnOk result ((other : List ℕ) → number_under self.new other
            ≡ option_or (number_under self.old other) (if bytes_eq other name.now then Some number
            else None)) }
        ensures unchanged { OnErr result ((other : List ℕ) → number_under self.new other
            ≡ number_under self.old other) }
    {
        if is_short(name) {
            put_short(&mut self.short, key_of(name), number)
        } else {
            put_other(alloc, &mut self.others, name, number)
        }
    }
}

// Whether a name is short: at most 18 characters, each below 128.
fn is_short(name: &[u8]) -> bool
    ensures { result ≡ is_short name.now }
{
    name.len() <= 18 && are_low(name)
}

fn are_low(name: &[u8]) -> bool
    ensures { result ≡ list_all (λ c. nat_lt c 128) name.now }
{
    name.iter().all(|character| *character < 128)
}

// The key of a short name, which no other short name has.
fn key_of(name: &[u8]) -> u128
    requires { IsTrue (is_short name.now) }
    ensures { result ≡ key_of name.now }
{
    let mut key = 1;
    for place in (0..name.len()).rev() {
        key = key * 128 + u128::from(name[place]);
    }
    key
}

// Gives a key this number where it has none. Where memory runs out nothing has changed.
fn put_short(numbers: &mut BTreeMap<u128, u32>, key: u128, number: u32) -> Result<(), AllocError>
    ensures there { OnOk result ((other : ℕ) → get nat_cmp numbers.new other
        ≡ option_or (get nat_cmp numbers.old other) (if is_eq (nat_cmp key other) then Some number
        else None)) }
    ensures unchanged { OnErr result ((other : ℕ) → get nat_cmp numbers.new other
        ≡ get nat_cmp numbers.old other) }
{
    if let Some(first) = numbers.insert(key, number)? {
        put_back(numbers, key, first);
    }
    Ok(())
}

// Gives a key another number than it has, which takes no memory.
fn put_back(numbers: &mut BTreeMap<u128, u32>, key: u128, number: u32)
    requires { is_some (get nat_cmp numbers.old key) ≡ true }
    ensures { (other : ℕ) → get nat_cmp numbers.new other
        ≡ (if is_eq (nat_cmp key other) then Some number else get nat_cmp numbers.old other) }
{
    match numbers.insert(key, number) {
        Ok(_) => {}
        Err(_) => unreachable!(),
    }
}

// Gives a name that isn't short this number where it has none. Where memory runs out nothing has
// changed.
fn put_other(
    alloc: Global,
    numbers: &mut BTreeMap<Vec<u8>, u32>,
    name: &[u8],
    number: u32,
) -> Result<(), AllocError>
    ensures there { OnOk result ((other : List ℕ) → number_apart numbers.new other
        ≡ option_or (number_apart numbers.old other) (if bytes_eq other name.now then Some number
        else None)) }
    ensures unchanged { OnErr result ((other : List ℕ) → number_apart numbers.new other
        ≡ number_apart numbers.old other) }
{
    if numbers.contains_key(name) {
        return Ok(());
    }
    let name = Vec::from_slice(alloc, name)?;
    numbers.insert(name, number)?;
    Ok(())
}
