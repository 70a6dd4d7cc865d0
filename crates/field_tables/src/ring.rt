ghost use Rattle.std.specs.Prelude.{IfOk, MatchOption, length, slice_index, true, ◌%◌, ◌*◌, ◌+◌, ◌<◌, ◌^◌, ◌≡◌, ◌≤◌, ℕ};
ghost use Rattle.design_base.specs.Fields.{field_product, field_sum, has_field};
ghost use Rattle.field_tables.specs.Tables.{IsListed, IsModular, IsTable, IsValues, by_rows, modulus_in, shifted};

use crate::polynomial::Polynomial;
use design_base::Memory;
use std::alloc::Global;
use std::marker::Model;

/// The sums and products of a listed order.
#[derive(Drop)]
pub struct Ring {
    order: u16,
    tables: Option<Tables>,
}

/// The sums and the products, row by row. A prime order has none: it computes with remainders.
#[derive(Drop)]
struct Tables {
    sums: Vec<u8>,
    products: Vec<u8>,
}

impl Model for Ring {
    ghost Value = { ℕ };

    ghost view = { λ r. r.order };

    ghost invariant = { λ r. (has_field r.order ≡ true)
        × MatchOption r.tables (IsModular r.order)
        (λ t. IsTable (field_sum r.order) r.order t.sums.items × IsTable (field_product r.order) r.order t.products.items) };
}

impl Ring {
    /// The sums and products under a listed polynomial.
    pub fn new(alloc: Global, polynomial: &Polynomial) -> Result<Ring, Memory>
        requires { IsListed polynomial.now }
        ensures { IfOk result (λ r. r ≡ polynomial.now.order) }
    {
        let order = polynomial.order;
        if order == polynomial.prime {
            return Ok(Ring {
                order,
                tables: None,
            });
        }
        let sums = sum_table(alloc, polynomial)?;
        let shifts = shift_table(alloc, polynomial, &sums)?;
        let products = product_table(alloc, polynomial, &sums, &shifts)?;
        Ok(Ring {
            order,
            tables: Some(Tables { sums, products }),
        })
    }

    /// The number of elements.
    pub fn order(&self) -> u16
        ensures order { result ≡ self.now }
        ensures listed { has_field self.now ≡ true }
    {
        self.order
    }

    /// The sum of two elements.
    pub fn add(&self, x: u16, y: u16) -> u16
        requires x_below { x < self.now }
        requires y_below { y < self.now }
        ensures sum { result ≡ field_sum self.now x y }
        ensures below { result < self.now }
    {
        match &self.tables {
            None => add_modulo(self.order, x, y),
            Some(tables) => entry(&tables.sums, self.order, x, y),
        }
    }

    /// The product of two elements.
    pub fn mul(&self, x: u16, y: u16) -> u16
        requires x_below { x < self.now }
        requires y_below { y < self.now }
        ensures product { result ≡ field_product self.now x y }
        ensures below { result < self.now }
    {
        match &self.tables {
            None => (x as u32 * y as u32 % self.order as u32) as u16,
            Some(tables) => entry(&tables.products, self.order, x, y),
        }
    }
}

// The sum of two remainders.
fn add_modulo(order: u16, x: u16, y: u16) -> u16
    requires x_below { x < order }
    requires y_below { y < order }
    requires room { order ≤ 2 ^ 15 }
    ensures { result ≡ (x + y) % order }
{
    if x + y < order { x + y } else { x + y - order }
}

// The entry in row x and column y.
fn entry(table: &[u8], order: u16, x: u16, y: u16) -> u16
    requires { x * order + y < length table.now }
    ensures { result ≡ slice_index table.now (x * order + y) }
{
    table[x as usize * order as usize + y as usize] as u16
}

// The sums.
fn sum_table(alloc: Global, polynomial: &Polynomial) -> Result<Vec<u8>, Memory>
    requires { IsListed polynomial.now }
    ensures { IfOk result (λ t. IsTable (field_sum polynomial.now.order) polynomial.now.order t.items) }
{
    let mut sums = Vec::new(alloc);
    for x in 0..polynomial.order {
        for y in 0..polynomial.order {
            let sum = next_sum(polynomial, &sums, x, y);
            sums.push(sum as u8)?;
        }
    }
    Ok(sums)
}

// The sum of x and y after those of the table: x / p and y / p have the other digits.
fn next_sum(polynomial: &Polynomial, sums: &[u8], x: u16, y: u16) -> u16
    requires listed { IsListed polynomial.now }
    requires x_below { x < polynomial.now.order }
    requires y_below { y < polynomial.now.order }
    requires size { length sums.now ≡ x * polynomial.now.order + y }
    requires sums { IsValues (by_rows (field_sum polynomial.now.order) polynomial.now.order) sums.now }
    ensures sum { result ≡ field_sum polynomial.now.order x y }
    ensures below { result < polynomial.now.order }
{
    let Polynomial { order, prime, .. } = *polynomial;
    if sums.is_empty() {
        return 0;
    }
    (x + y) % prime + prime * entry(sums, order, x / prime, y / prime)
}

// The products of the elements by the polynomial x.
fn shift_table(alloc: Global, polynomial: &Polynomial, sums: &[u8]) -> Result<Vec<u8>, Memory>
    requires listed { IsListed polynomial.now }
    requires sums { IsTable (field_sum polynomial.now.order) polynomial.now.order sums.now }
    ensures size { IfOk result (λ t. length t.items ≡ polynomial.now.order) }
    ensures values { IfOk result (λ t. IsValues (shifted (modulus_in polynomial.now)) t.items) }
{
    let mut shifts = Vec::new(alloc);
    for y in 0..polynomial.order {
        shifts.push(next_shift(polynomial, sums, &shifts, y) as u8)?;
    }
    Ok(shifts)
}

// The product of y by the polynomial x. The excess comes in once for each unit of the highest digit.
fn next_shift(polynomial: &Polynomial, sums: &[u8], shifts: &[u8], y: u16) -> u16
    requires listed { IsListed polynomial.now }
    requires sums { IsTable (field_sum polynomial.now.order) polynomial.now.order sums.now }
    requires y_below { y < polynomial.now.order }
    requires size { length shifts.now ≡ y }
    requires shifts { IsValues (shifted (modulus_in polynomial.now)) shifts.now }
    ensures shift { result ≡ shifted (modulus_in polynomial.now) y }
    ensures below { result < polynomial.now.order }
{
    let Polynomial { order, prime, .. } = *polynomial;
    let high = order / prime;
    if y < high {
        return prime * y;
    }
    let lower = shifts[(y - high) as usize] as u16;
    entry(sums, order, lower, polynomial.excess())
}

// The products.
fn product_table(
    alloc: Global,
    polynomial: &Polynomial,
    sums: &[u8],
    shifts: &[u8],
) -> Result<Vec<u8>, Memory>
    requires listed { IsListed polynomial.now }
    requires sums { IsTable (field_sum polynomial.now.order) polynomial.now.order sums.now }
    requires size { length shifts.now ≡ polynomial.now.order }
    requires shifts { IsValues (shifted (modulus_in polynomial.now)) shifts.now }
    ensures { IfOk result (λ t. IsTable (field_product polynomial.now.order) polynomial.now.order t.items) }
{
    let mut products = Vec::new(alloc);
    for x in 0..polynomial.order {
        for y in 0..polynomial.order {
            let product = next_product(polynomial, sums, shifts, &products, x, y);
            products.push(product as u8)?;
        }
    }
    Ok(products)
}

// The product of x and y after those of the table: (x - 1) y + y where the lowest digit of x isn't 0, and else x / p
// times the shift of y.
fn next_product(
    polynomial: &Polynomial,
    sums: &[u8],
    shifts: &[u8],
    products: &[u8],
    x: u16,
    y: u16,
) -> u16
    requires listed { IsListed polynomial.now }
    requires sums { IsTable (field_sum polynomial.now.order) polynomial.now.order sums.now }
    requires shifted { length shifts.now ≡ polynomial.now.order }
    requires shifts { IsValues (shifted (modulus_in polynomial.now)) shifts.now }
    requires x_below { x < polynomial.now.order }
    requires y_below { y < polynomial.now.order }
    requires size { length products.now ≡ x * polynomial.now.order + y }
    requires products { IsValues (by_rows (field_product polynomial.now.order) polynomial.now.order) products.now }
    ensures product { result ≡ field_product polynomial.now.order x y }
    ensures below { result < polynomial.now.order }
{
    let Polynomial { order, prime, .. } = *polynomial;
    if x == 0 {
        return 0;
    }
    if x % prime == 0 {
        return entry(products, order, x / prime, shifts[y as usize] as u16);
    }
    entry(sums, order, entry(products, order, x - 1, y), y)
}
