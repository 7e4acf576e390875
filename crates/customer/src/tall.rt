// A customer's store of tall matrices.
ghost use Rattle.std.specs.Prelude.{refl};
ghost use Rattle.customer.specs.Shapes.{is_tall};

use crate::shaped::{ShapeRule, Shaped};
use matrix::layout::Shape;

// No fewer rows than columns.
pub struct TallRule;

impl ShapeRule for TallRule {
    ghost takes = { is_tall };

    ghost starts = { refl };

    fn takes(shape: Shape) -> bool {
        shape.rows >= shape.columns
    }
}

pub type Tall<'a> = Shaped<'a, TallRule>;
