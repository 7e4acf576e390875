// A customer's store of square matrices.
ghost use Rattle.std.specs.Prelude.{refl};
ghost use Rattle.customer.specs.Shapes.{is_square};

use crate::shaped::{ShapeRule, Shaped};
use matrix::layout::Shape;

// As many rows as columns.
pub struct SquareRule;

impl ShapeRule for SquareRule {
    ghost takes = { is_square };

    ghost starts = { refl };

    fn takes(shape: Shape) -> bool {
        shape.rows == shape.columns
    }
}

pub type Square<'a> = Shaped<'a, SquareRule>;
