ghost use Rattle.std.specs.Prelude.{IfOk, length, slice_index_or, false, true, ◌<◌, ◌≡◌, ℕ};
ghost use Rattle.counting.specs.Search.{is_among};
ghost use Rattle.design_base.specs.Fields.{field_product, field_sum, gen, has_field, is_generator, powers as powers_of};
ghost use Rattle.field_tables.specs.Powers.{power as power_of};
ghost use Rattle.field_tables.specs.Tables.{IsListed, IsSolved};

use crate::polynomial::Polynomial;
use crate::ring::Ring;
use design_base::Memory;
use std::alloc::Global;
use std::marker::Model;

/// A finite field. Its elements are the numbers below its order, and clauses see it as its order.
#[derive(Drop)]
pub struct Field {
    ring: Ring,
    negatives: Vec<u8>,
    inverses: Vec<u8>,
    generator: u16,
}

impl Model for Field {
    ghost Value = { ℕ };

    ghost view = { λ f. f.ring };

    ghost invariant = { λ f. (has_field f.ring ≡ true)
        × IsSolved (field_sum f.ring) 0 0 f.ring f.negatives.items
        × IsSolved (field_product f.ring) 1 1 f.ring f.inverses.items
        × (f.generator ≡ gen f.ring) };
}

impl Field {
    /// The field of a listed polynomial.
    pub(crate) fn new(alloc: Global, polynomial: &Polynomial) -> Result<Field, Memory>
        requires { IsListed polynomial.now }
        ensures { IfOk result (λ f. f ≡ polynomial.now.order) }
    {
        let ring = Ring::new(alloc, polynomial)?;
        let negatives = negatives(alloc, &ring)?;
        let inverses = inverses(alloc, &ring)?;
        let generator = least_generator(alloc, &ring)?;
        Ok(Field {
            ring,
            negatives,
            inverses,
            generator,
        })
    }

    /// The number of elements.
    pub fn order(&self) -> u16
        ensures order { result ≡ self.now }
        ensures listed { has_field self.now ≡ true }
    {
        self.ring.order()
    }

    /// The sum of two elements.
    pub fn add(&self, x: u16, y: u16) -> u16
        requires x_below { x < self.now }
        requires y_below { y < self.now }
        ensures sum { result ≡ field_sum self.now x y }
        ensures below { result < self.now }
    {
        self.ring.add(x, y)
    }

    /// The negative of an element: what is added to it to give 0.
    pub fn neg(&self, x: u16) -> u16
        requires { x < self.now }
        ensures sum { field_sum self.now x result ≡ 0 }
        ensures below { result < self.now }
    {
        self.negatives[x as usize] as u16
    }

    /// The product of two elements.
    pub fn mul(&self, x: u16, y: u16) -> u16
        requires x_below { x < self.now }
        requires y_below { y < self.now }
        ensures product { result ≡ field_product self.now x y }
        ensures below { result < self.now }
    {
        self.ring.mul(x, y)
    }

    /// The inverse of an element but 0: the element by which its product is 1.
    pub fn inv(&self, x: u16) -> u16
        requires nonzero { 0 < x }
        requires below { x < self.now }
        ensures product { field_product self.now x result ≡ 1 }
        ensures below { result < self.now }
    {
        self.inverses[x as usize] as u16
    }

    /// The `n`-th power of an element, which is 1 where `n` is 0.
    #[tactic(auto, using(crate::proofs::PowerSteps::power_steps))]
    pub fn power(&self, x: u16, n: u16) -> u16
        requires { x < self.now }
        ensures value { result ≡ power_of (field_product self.now) x n }
        ensures below { result < self.now }
    {
        let mut power = 1;
        for _ in 0..n {
            power = self.ring.mul(power, x);
        }
        power
    }

    /// The least element whose powers are all elements but 0.
    pub fn least_generator(&self) -> u16
        ensures { result ≡ gen self.now }
    {
        self.generator
    }
}

// The y with x + y = 0.
fn negative(ring: &Ring, x: u16) -> u16
    requires { x < ring.now }
    ensures sum { field_sum ring.now x result ≡ 0 }
    ensures below { result < ring.now }
{
    for y in 0..ring.order() {
        if ring.add(x, y) == 0 {
            return y;
        }
    }
    unreachable!()
}

fn negatives(alloc: Global, ring: &Ring) -> Result<Vec<u8>, Memory>
    ensures { IfOk result (λ t. IsSolved (field_sum ring.now) 0 0 ring.now t.items) }
{
    let mut negatives = Vec::new(alloc);
    for x in 0..ring.order() {
        negatives.push(negative(ring, x) as u8)?;
    }
    Ok(negatives)
}

// The y with x y = 1.
fn inverse(ring: &Ring, x: u16) -> u16
    requires nonzero { 0 < x }
    requires below { x < ring.now }
    ensures product { field_product ring.now x result ≡ 1 }
    ensures below { result < ring.now }
{
    for y in 0..ring.order() {
        if ring.mul(x, y) == 1 {
            return y;
        }
    }
    unreachable!()
}

// The inverses, with 0 for that of 0.
fn inverses(alloc: Global, ring: &Ring) -> Result<Vec<u8>, Memory>
    ensures { IfOk result (λ t. IsSolved (field_product ring.now) 1 1 ring.now t.items) }
{
    let mut inverses = Vec::new(alloc);
    inverses.push(0)?;
    for x in 1..ring.order() {
        inverses.push(inverse(ring, x) as u8)?;
    }
    Ok(inverses)
}

// For each element, whether it is a power of g.
fn powers(alloc: Global, ring: &Ring, g: u16) -> Result<Vec<bool>, Memory>
    requires { g < ring.now }
    ensures size { IfOk result (λ t. length t.items ≡ ring.now) }
    ensures marks { IfOk result (λ t. (y : ℕ) → y < ring.now → slice_index_or t.items y false ≡ is_among y (powers_of ring.now g)) }
{
    let mut seen = vec![in alloc; false; ring.order() as usize]?;
    let mut power = 1;
    for _ in 1..ring.order() {
        seen[power as usize] = true;
        power = ring.mul(power, g);
    }
    Ok(seen)
}

// Whether each element but 0 is a power of g.
fn generates(alloc: Global, ring: &Ring, g: u16) -> Result<bool, Memory>
    requires { g < ring.now }
    ensures { IfOk result (λ b. b ≡ is_generator ring.now g) }
{
    let seen = powers(alloc, ring, g)?;
    for x in 1..ring.order() {
        if !seen[x as usize] {
            return Ok(false);
        }
    }
    Ok(true)
}

// The least element whose powers are all elements but 0, and 1 where there is none.
fn least_generator(alloc: Global, ring: &Ring) -> Result<u16, Memory>
    ensures { IfOk result (λ g. g ≡ gen ring.now) }
{
    for g in 1..ring.order() {
        if generates(alloc, ring, g)? {
            return Ok(g);
        }
    }
    Ok(1)
}
