// Orthogonal arrays of strength three.
ghost use Rattle.std.specs.Prelude.{◌≡◌, ◌+◌, ◌*◌, ◌<◌, ◌≤◌, ◌++◌, [], ◌∷◌, ℕ, List, true, IfOk, IfSome, OnOk, is_some, replicate};
ghost use Rattle.counting.specs.Sums.{join_below, list_below};
ghost use Rattle.design_base.specs.Fields.{field_product, field_sum, has_field};
ghost use Rattle.incidence.specs.Packed.{size_of};
ghost use Rattle.three_designs.specs.Arrays.{CanMakeRows, cube_entry, cube_rows, oa3_list, oa3_verdict_of, polynomial_entry, rows_by as rows_of, sum_entry};
ghost use Rattle.three_designs.specs.StrengthThree.{IsOa3};
ghost use Rattle.three_designs.specs.Verdicts.{is_yes};
ghost use Rattle.three_designs.specs.declared.verdict.ThreeVerdict.TheVariants.{No};

use crate::limits::{OA3_K_MAX, OA3_N_MAX};
use crate::verdict::{ThreeRule, ThreeVerdict};
use design_base::{Memory, PACKED_MAX, is_field_order};
use field_tables::{Field, open_field};
use incidence::Rows;
use std::alloc::Global;

/// What is known of an orthogonal array of strength three with `k` columns and `n` symbols: `n` * `n` * `n` rows, in which three
/// columns show each triple of symbols once.
///
/// `k` is from 3 to `OA3_K_MAX` and `n` from 1 to `OA3_N_MAX`. Where the answer is No there is none, since an array of 2 symbols
/// or more has at most `n` + 2 columns (K. A. Bush, Orthogonal arrays of index unity, 1952). No memory is taken.
#[tactic(auto, unfolding(crate::specs::Arrays::oa3_verdict_of))]
pub fn oa3_verdict(k: u16, n: u16) -> ThreeVerdict
    requires columns { (3 ≤ k) × (k ≤ OA3_K_MAX) }
    requires symbols { (1 ≤ n) × (n ≤ OA3_N_MAX) }
    ensures value { result ≡ oa3_verdict_of k n }
    ensures law { result ≡ No → (R : List (List ℕ)) → ¬ IsOa3 R k n }
{
    if n == 1 {
        ThreeVerdict::Yes(ThreeRule::One)
    } else if k > n + 2 {
        ThreeVerdict::No
    } else if k <= 4 {
        ThreeVerdict::Yes(ThreeRule::Sum)
    } else if k <= n + 1 && is_field_order(n) {
        ThreeVerdict::Yes(ThreeRule::Polynomials)
    } else {
        ThreeVerdict::Unknown
    }
}

// The entry in column `j` of the row of `x`, `y`, `z` and their sum.
fn sum(n: u16, x: u16, y: u16, z: u16, j: u16) -> u16
    requires small { n ≤ OA3_N_MAX }
    requires within { (x < n) × (y < n) × (z < n) }
    ensures { result ≡ sum_entry n x y z j }
{
    match j {
        0 => x,
        1 => y,
        2 => z,
        _ => (x + y + z) % n,
    }
}

// The value at element `j` of the polynomial with the coefficients `a`, `b` and `c`, and behind the elements `c`.
fn polynomial(field: &Field, a: u16, b: u16, c: u16, j: u16) -> u16
    requires column { j ≤ field.now }
    requires within { (a < field.now) × (b < field.now) × (c < field.now) }
    ensures { result ≡ polynomial_entry field.now (field_sum field.now) (field_product field.now) a b c j }
{
    if j == field.order() {
        return c;
    }
    let linear = field.add(a, field.mul(b, j));
    field.add(linear, field.mul(c, field.mul(j, j)))
}

// The entry in column `j` of the row of `x`, `y` and `z`: over the field, if there is one, and else of sums.
fn entry(field: Option<&Field>, n: u16, x: u16, y: u16, z: u16, j: u16) -> u16
    requires order { IfSome field (λ f. (f.now ≡ n) × (j ≤ n)) }
    requires small { n ≤ OA3_N_MAX }
    requires within { (x < n) × (y < n) × (z < n) }
    ensures { result ≡ cube_entry (is_some field.entry) n x y z j }
{
    match field {
        Some(field) => polynomial(field, x, y, z, j),
        None => sum(n, x, y, z, j),
    }
}

// The row of `x`, `y` and `z`.
#[tactic(auto, using(crate::proofs::Steps::steps))]
fn cube_row(
    alloc: Global,
    field: Option<&Field>,
    k: u16,
    n: u16,
    x: u16,
    y: u16,
    z: u16,
) -> Result<Vec<u16>, Memory>
    requires order { IfSome field (λ f. (f.now ≡ n) × (k ≤ n + 1)) }
    requires small { n ≤ OA3_N_MAX }
    requires within { (x < n) × (y < n) × (z < n) }
    ensures { IfOk result (λ row. row.items ≡ list_below k (cube_entry (is_some field.entry) n x y z)) }
{
    let mut row = Vec::with_capacity(alloc, usize::from(k))?;
    for j in 0..k {
        row.push(entry(field, n, x, y, z, j))?;
    }
    Ok(row)
}

// Appends the rows of `x` and `y`.
#[tactic(auto, using(crate::proofs::Steps::steps))]
fn push_line(
    alloc: Global,
    rows: &mut Rows,
    field: Option<&Field>,
    k: u16,
    n: u16,
    x: u16,
    y: u16,
) -> Result<(), Memory>
    requires order { IfSome field (λ f. (f.now ≡ n) × (k ≤ n + 1)) }
    requires small { (k ≤ OA3_K_MAX) × (n ≤ OA3_N_MAX) }
    requires within { (x < n) × (y < n) }
    requires room { size_of rows.old + (OA3_K_MAX + 1) * n < PACKED_MAX }
    ensures ok { OnOk result (rows.new ≡ rows.old ++ list_below n (λ z. list_below k (cube_entry (is_some field.entry) n x y z))) }
    ensures size { OnOk result (size_of rows.new ≤ size_of rows.old + (OA3_K_MAX + 1) * n) }
{
    for z in 0..n {
        let row = cube_row(alloc, field, k, n, x, y, z)?;
        rows.push_row(&row)?;
    }
    Ok(())
}

// Appends the rows of `x`.
#[tactic(auto, using(crate::proofs::Steps::steps))]
fn push_plane(
    alloc: Global,
    rows: &mut Rows,
    field: Option<&Field>,
    k: u16,
    n: u16,
    x: u16,
) -> Result<(), Memory>
    requires order { IfSome field (λ f. (f.now ≡ n) × (k ≤ n + 1)) }
    requires small { (k ≤ OA3_K_MAX) × (n ≤ OA3_N_MAX) }
    requires within { x < n }
    requires room { size_of rows.old + (OA3_K_MAX + 1) * OA3_N_MAX * n < PACKED_MAX }
    ensures ok { OnOk result (rows.new ≡ rows.old ++ join_below n (λ y. list_below n (λ z. list_below k (cube_entry (is_some field.entry) n x y z)))) }
    ensures size { OnOk result (size_of rows.new ≤ size_of rows.old + (OA3_K_MAX + 1) * OA3_N_MAX * n) }
{
    for y in 0..n {
        push_line(alloc, rows, field, k, n, x, y)?;
    }
    Ok(())
}

// The rows of all `x`, `y` and `z`.
#[tactic(auto, using(crate::proofs::Steps::steps), unfolding(crate::specs::Arrays::cube_rows))]
fn cube(alloc: Global, field: Option<&Field>, k: u16, n: u16) -> Result<Rows, Memory>
    requires order { IfSome field (λ f. (f.now ≡ n) × (k ≤ n + 1)) }
    requires small { (k ≤ OA3_K_MAX) × (n ≤ OA3_N_MAX) }
    ensures { IfOk result (λ rows. rows ≡ cube_rows k n (cube_entry (is_some field.entry) n)) }
{
    let mut rows = Rows::new(alloc);
    for x in 0..n {
        push_plane(alloc, &mut rows, field, k, n, x)?;
    }
    Ok(rows)
}

// One row of zeros.
fn zeros(alloc: Global, k: u16) -> Result<Rows, Memory>
    requires columns { k ≤ OA3_K_MAX }
    ensures { IfOk result (λ rows. rows ≡ replicate k 0 ∷ []) }
{
    let mut rows = Rows::new(alloc);
    let row = vec![in alloc; 0; usize::from(k)]?;
    rows.push_row(&row)?;
    Ok(rows)
}

// The rows of polynomials over the field of `n` elements.
fn polynomials(alloc: Global, k: u16, n: u16) -> Result<Rows, Memory>
    requires columns { k ≤ n + 1 }
    requires small { (k ≤ OA3_K_MAX) × (n ≤ OA3_N_MAX) }
    requires listed { has_field n ≡ true }
    ensures { IfOk result (λ rows. rows ≡ cube_rows k n (cube_entry true n)) }
{
    let Some(field) = open_field(alloc, n)? else {
        unreachable!()
    };
    let rows = cube(alloc, Some(&field), k, n)?;
    Ok(rows)
}

// The rows that a rule makes.
fn rows_by(alloc: Global, rule: ThreeRule, k: u16, n: u16) -> Result<Rows, Memory>
    requires small { (k ≤ OA3_K_MAX) × (n ≤ OA3_N_MAX) }
    requires needs { CanMakeRows rule k n }
    ensures { IfOk result (λ rows. rows ≡ rows_of rule k n) }
{
    match rule {
        ThreeRule::One => zeros(alloc, k),
        ThreeRule::Sum => cube(alloc, None, k, n),
        ThreeRule::Polynomials => polynomials(alloc, k, n),
        _ => unreachable!(),
    }
}

/// The rows of an orthogonal array of strength three with `k` columns and `n` symbols, in lexicographic order: in three columns
/// each triple of symbols stands in exactly one row.
///
/// `k` is from 3 to `OA3_K_MAX` and `n` from 1 to `OA3_N_MAX`, and the verdict is Yes. By its rule it is one row of zeros; or for
/// each three symbols the row of these and their sum modulo `n`, cut to `k` columns; or for each polynomial of degree below 3 over
/// the field of `n` elements the row of its values at the elements and its leading coefficient, cut to `k` columns (K. A. Bush,
/// Orthogonal arrays of index unity, 1952). The answer is `Memory` only for want of memory.
#[tactic(auto, unfolding(crate::specs::Arrays::oa3_list))]
pub fn oa3_rows(alloc: Global, k: u16, n: u16) -> Result<Rows, Memory>
    requires columns { (3 ≤ k) × (k ≤ OA3_K_MAX) }
    requires symbols { (1 ≤ n) × (n ≤ OA3_N_MAX) }
    requires yes { is_yes (oa3_verdict_of k n) ≡ true }
    ensures rows { IfOk result (λ rows. rows ≡ oa3_list k n) }
    ensures array { IfOk result (λ rows. IsOa3 rows k n) }
{
    let ThreeVerdict::Yes(rule) = oa3_verdict(k, n) else {
        unreachable!()
    };
    let rows = rows_by(alloc, rule, k, n)?;
    let rows = rows.in_order()?;
    Ok(rows)
}
