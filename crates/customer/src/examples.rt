// One generic function at four fields: a row of codes plus once, twice or x times another. Each example calls it itself, as a customer
// would; one more generic function between would only hide that.
ghost use Rattle.std.specs.Prelude.{◌≡◌, [], ◌∷◌, Ok};

use crate::gf4::Gf4;
use crate::gf9::Gf9;
use field::gf2::Gf2;
use field::gfp::GfP;
use field::rows::add_multiple;
use refusal::Refusal;

// 1 1 0 + 1 (1 0 1)
pub fn row_over_gf2() -> [u16; 3]
    ensures { result ≡ (0 ∷ 1 ∷ 1 ∷ []) }
{
    let mut row = [1, 1, 0];
    add_multiple(&Gf2, &mut row, 1, &[1, 0, 1]);
    row
}

// 6 4 1 + 2 (3 6) modulo 7: the last place stays.
pub fn row_over_gf7() -> Result<[u16; 3], Refusal>
    ensures { result ≡ Ok (5 ∷ 2 ∷ 1 ∷ []) }
{
    let field = GfP::new(7)?;
    let mut row = [6, 4, 1];
    add_multiple(&field, &mut row, 2, &[3, 6]);
    Ok(row)
}

// 1 2 3 + x (1 2 3), where 2 is x and 3 is x + 1.
pub fn row_over_gf4() -> [u16; 3]
    ensures { result ≡ (3 ∷ 1 ∷ 2 ∷ []) }
{
    let mut row = [1, 2, 3];
    add_multiple(&Gf4, &mut row, 2, &[1, 2, 3]);
    row
}

// 1 3 9 + x (1 3 1), where 3 is x and 9 is no code.
pub fn row_over_gf9() -> [u16; 3]
    ensures { result ≡ (4 ∷ 5 ∷ 0 ∷ []) }
{
    let mut row = [1, 3, 9];
    add_multiple(&Gf9, &mut row, 3, &[1, 3, 1]);
    row
}
