// Finite fields: the listed orders, with their sums, products and inverses.
#![tactic(auto)]

mod field;
mod fields;
mod laws;
mod polynomial;
mod ring;

pub use field::Field;
pub use fields::{Fields, open_field};
pub use laws::field_laws;

#[cfg(test)]
mod tests {
    use super::*;
    use design_base::FIELD_ORDERS;
    use std::test::Fail;

    #[test]
    fn opens_the_listed_orders(rt: HostRuntime) -> Result<(), Fail> {
        let fields = Fields::open(rt.alloc())?;
        for q in 0..300 {
            let listed = FIELD_ORDERS.iter().any(|order| *order == q);
            assert_eq!(rt; fields.field(q).is_some(), listed);
        }
        Ok(())
    }

    // The order, two elements, their sum and their product, the inverse of the first, and the least generator. The power of an
    // element by the number of all elements but 0 is 1.
    #[test]
    fn computes_in_fields(rt: HostRuntime) -> Result<(), Fail> {
        let fields = Fields::open(rt.alloc())?;
        for (q, x, y, sum, product, inverse, generator) in [
            (2, 1, 1, 0, 1, 1, 1),
            (4, 2, 3, 1, 1, 3, 2),
            (9, 3, 4, 7, 5, 6, 4),
            (25, 5, 6, 11, 8, 10, 6),
            (49, 7, 7, 14, 6, 42, 9),
            (121, 11, 11, 22, 10, 110, 15),
            (125, 25, 5, 30, 24, 46, 9),
            (127, 2, 126, 1, 125, 64, 3),
        ] {
            let field = fields.field(q).ok_or("no field")?;
            assert_eq!(rt; field.order(), q);
            assert!(rt; 0 < x && x < q);
            assert!(rt; y < q);
            assert_eq!(rt; field.add(x, y), sum);
            assert_eq!(rt; field.mul(x, y), product);
            assert_eq!(rt; field.inv(x), inverse);
            assert_eq!(rt; field.power(x, q - 1), 1);
            assert_eq!(rt; field.add(field.neg(x), x), 0);
            assert_eq!(rt; field.least_generator(), generator);
        }
        Ok(())
    }
}
