// One generic function that fills any store, and what it does in a dense store of each width and in a customer's.
// Shape and puts are told as plain arguments, as `begin` and `put_all` take them.
ghost use Rattle.std.specs.Prelude.{◌≡◌, length};
ghost use Rattle.refusal.specs.Outcomes.{outcome, and_then};
ghost use Rattle.matrix.specs.Terms.{told};
ghost use Rattle.stores.specs.Packed.{entry_width};
ghost use Rattle.stores.specs.Dense.{dense_terms};
ghost use Rattle.customer.specs.Filling.{fill_outcome, fill_after, filled_count};
ghost use Rattle.customer.specs.Shapes.{shaped_terms};

use crate::shaped::{ShapeRule, Shaped};
use matrix::grid::Grid;
use matrix::put::Put;
use matrix::store::{Store, put_all};
use refusal::Refusal;
use stores::dense::Dense;
use stores::width::EntryWidth;

// Takes a shape and makes puts in it, up to the first that is refused.
pub fn fill<S: Store>(store: &mut S, rows: u32, columns: u32, puts: &[Put]) -> Result<(), Refusal>
    ensures answer { told result ≡ fill_outcome (S.terms store.old) rows columns puts.now }
    ensures after { S.Grid.holds store.new ≡ fill_after (S.terms store.old) (S.Grid.holds store.old) rows columns puts.now }
    ensures terms { S.terms store.new ≡ S.terms store.old }
    ensures backing { S.backing store.new ≡ S.backing store.old }
{
    store.begin(rows, columns)?;
    put_all(store, puts)
}

// The same, told by how many entries are not 0.
fn filled<S: Store>(store: &mut S, rows: u32, columns: u32, puts: &[Put]) -> Result<u64, Refusal>
    ensures { outcome (λ n. n) result ≡ filled_count (S.terms store.old) rows columns puts.now }
{
    fill(store, rows, columns, puts)?;
    Ok(store.nonzero())
}

// Fills a dense store of w bits an entry, and tells how many entries are not 0.
pub fn fill_dense(
    w: u32,
    bytes: &mut [u8],
    rows: u32,
    columns: u32,
    puts: &[Put],
) -> Result<u64, Refusal>
    ensures { outcome (λ n. n) result ≡ and_then (entry_width w) (λ bits. filled_count (dense_terms bits (length bytes.old)) rows columns puts.now) }
{
    let width = EntryWidth::try_from(w)?;
    filled(&mut Dense::new(width, bytes), rows, columns, puts)
}

// Fills a store of the shapes that a rule takes, and tells how many entries are not 0.
pub fn fill_shaped<R: ShapeRule>(
    codes: &mut [u16],
    rows: u32,
    columns: u32,
    puts: &[Put],
) -> Result<u64, Refusal>
    ensures { outcome (λ n. n) result ≡ filled_count (shaped_terms R.takes (length codes.old)) rows columns puts.now }
{
    filled(&mut Shaped::<R>::new(codes), rows, columns, puts)
}

#[cfg(test)]
mod tests {
    use super::{fill_dense, fill_shaped};
    use crate::square::SquareRule;
    use crate::tall::TallRule;
    use matrix::put::Put;
    use refusal::Refusal;
    use std::test::Fail;

    // Two entries set, one of them cleared again, and a third.
    const PUTS: [Put; 4] = [
        Put {
            row: 1,
            column: 1,
            code: 1,
        },
        Put {
            row: 4,
            column: 2,
            code: 1,
        },
        Put {
            row: 1,
            column: 1,
            code: 0,
        },
        Put {
            row: 2,
            column: 4,
            code: 1,
        },
    ];

    #[test]
    fn dense_at_each_width(rt: HostRuntime) -> Result<(), Fail> {
        for w in [1, 2, 4, 8] {
            let mut bytes = [0xffu8; 16];
            assert_eq!(rt; fill_dense(w, &mut bytes, 4, 4, &PUTS)?, 2);
            let large = [Put {
                row: 1,
                column: 1,
                code: 256,
            }];
            assert_eq!(rt;
                fill_dense(w, &mut bytes, 1, 1, &large),
                Err(Refusal::CodeTooLarge)
            );
        }
        let mut bytes = [0xffu8; 16];
        assert_eq!(rt;
            fill_dense(8, &mut bytes, 4, 5, &PUTS),
            Err(Refusal::ShapeNotTaken)
        );
        assert_eq!(rt; fill_dense(1, &mut bytes, 16, 8, &PUTS)?, 2);
        assert_eq!(rt;
            fill_dense(1, &mut bytes, 3, 4, &PUTS),
            Err(Refusal::OutsideShape)
        );
        assert_eq!(rt;
            fill_dense(3, &mut bytes, 4, 4, &PUTS),
            Err(Refusal::EntryWidth)
        );
        Ok(())
    }

    #[test]
    fn square_shapes_only(rt: HostRuntime) -> Result<(), Fail> {
        let mut codes = [0xffffu16; 16];
        assert_eq!(rt; fill_shaped::<SquareRule>(&mut codes, 4, 4, &PUTS)?, 2);
        assert_eq!(rt;
            fill_shaped::<SquareRule>(&mut codes, 4, 3, &PUTS),
            Err(Refusal::ShapeNotTaken)
        );
        assert_eq!(rt;
            fill_shaped::<SquareRule>(&mut codes, 5, 5, &PUTS),
            Err(Refusal::ShapeNotTaken)
        );
        Ok(())
    }

    #[test]
    fn tall_shapes_only(rt: HostRuntime) -> Result<(), Fail> {
        let mut codes = [0xffffu16; 16];
        assert_eq!(rt; fill_shaped::<TallRule>(&mut codes, 4, 4, &PUTS)?, 2);
        assert_eq!(rt;
            fill_shaped::<TallRule>(&mut codes, 3, 4, &PUTS),
            Err(Refusal::ShapeNotTaken)
        );
        assert_eq!(rt;
            fill_shaped::<TallRule>(&mut codes, 5, 5, &PUTS),
            Err(Refusal::ShapeNotTaken)
        );
        Ok(())
    }
}
