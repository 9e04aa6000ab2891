// Rows by a hash of their coefficients.

ghost use Rattle.std.specs.Prelude.{◌≡◌, ◌<◌, ℕ, IfOk, OnOk, [], ◌∷◌, ◌++◌, length};
ghost use Rattle.elim_rows.specs.Chains.{mixed as mixed_with, hash_of as hash, place_of as place, AreChained, IsNewest, link_of};

use std::alloc::{AllocError, Global};

/// What each coefficient is multiplied by: odd, and with no pattern.
const FACTOR: u128 = 0x2360_ED05_1FC6_5DA4_4385_DF64_9FCC_F645;

// The hash with one coefficient more.
#[inline(always)]
fn mixed(hash: u128, coef: i128) -> u128
    ensures { result ≡ mixed_with hash coef }
{
    hash.wrapping_add(coef.cast_unsigned()).wrapping_mul(FACTOR)
}

/// The hash of coefficients.
pub fn hash_of(coefs: &[i128]) -> u128
    ensures { result ≡ hash coefs.now }
{
    let mut sum = 0;
    for coef in coefs {
        sum = mixed(sum, *coef);
    }
    sum
}

/// The hash of a row's coefficients, and how its place leads to an earlier row.
#[derive(Clone, Copy)]
pub struct Link {
    pub hash: u128,
    /// One more than the number of the last row before this one with the same place, 0 if there is none.
    pub earlier: usize,
}

/// The rows by their places: all with one place are met from the last one back.
#[derive(Drop)]
pub struct Chains {
    /// One for each row.
    pub links: Vec<Link>,
    /// For each place one more than the number of its last row, 0 if there is none.
    pub latest: Vec<usize>,
}

// The place of a hash among so many.
#[inline(always)]
fn place_of(hash: u128, places: usize) -> usize
    requires { 0 < places }
    ensures place { result ≡ place places hash }
    ensures within { result < places }
{
    (((hash >> 64) * places as u128) >> 64) as usize
}

impl Chains {
    /// No row, with so many places and room for so many rows.
    pub fn new(alloc: Global, places: usize, room: usize) -> Result<Self, AllocError>
        requires { 0 < places }
        ensures none { IfOk result (λ chains. chains.links.items ≡ []) }
        ensures chained { IfOk result (λ chains. AreChained chains.links.items
            chains.latest.items) }
    {
        Ok(Chains {
            links: Vec::with_capacity(alloc, room)?,
            latest: vec![in alloc; 0; places]?,
        })
    }

    /// One more than the number of the last row with the hash's place, 0 if there is none.
    #[inline(always)]
    pub fn last(&self, hash: u128) -> usize
        requires { AreChained self.now.links.items self.now.latest.items }
        ensures { IsNewest self.now.links.items (length self.now.latest.items)
            (place (length self.now.latest.items) hash) (length self.now.links.items) result }
    {
        self.latest[place_of(hash, self.latest.len())]
    }

    /// One more row. Where memory runs out nothing has changed.
    #[inline(always)]
    pub fn push(&mut self, hash: u128) -> Result<(), AllocError>
        requires { AreChained self.old.links.items self.old.latest.items }
        ensures pushed { OnOk result ((earlier : ℕ) × (self.new.links.items ≡ self.old.links.items
            ++ link_of hash earlier ∷ [])) }
        ensures chained { OnOk result (AreChained self.new.links.items self.new.latest.items) }
    {
        let place = place_of(hash, self.latest.len());
        let earlier = self.latest[place];
        self.links.push(Link { hash, earlier })?;
        self.latest[place] = self.links.len();
        Ok(())
    }
}
