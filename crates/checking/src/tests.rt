// Claims for nineteen sensors, all linked, with a fence of three.
use crate::check;
use field::gf2::Gf2;
use homology::kind::Kind;
use refusal::Refusal;
use std::test::Fail;
use survey::neighbours::Neighbours;
use survey::plan::Survey;
use survey::sensor_set::SensorSet;

// Made here, and as other tests make such surveys, since tests are no library.
fn nineteen() -> Result<Survey, Refusal> {
    let mut neighbours = Neighbours::new(19)?;
    for x in 1..=19u16 {
        for y in 1..=19u16 {
            if x != y {
                neighbours.add(x, y)?;
            }
        }
    }
    Survey::new(neighbours, &[1, 2, 3])
}

// The triangle 1 2 3 is the first of 969.
#[test]
fn one_triangle_fills_a_fence_of_three(rt: HostRuntime) -> Result<(), Fail> {
    let survey = nineteen()?;
    let on = survey.all();
    let mut codes = [0u16; 970];
    assert_eq!(rt; check(&survey, &on, &Gf2, Kind::Filling, &codes), Ok(false));
    codes[0] = 1;
    codes[969] = 2;
    assert_eq!(rt; check(&survey, &on, &Gf2, Kind::Filling, &codes), Ok(true));
    codes[968] = 1;
    assert_eq!(rt; check(&survey, &on, &Gf2, Kind::Filling, &codes), Ok(false));
    codes[968] = 2;
    assert_eq!(rt;
        check(&survey, &on, &Gf2, Kind::Filling, &codes),
        Err(Refusal::NotACode)
    );
    assert_eq!(rt;
        check(&survey, &on, &Gf2, Kind::Filling, &codes[0..968]),
        Err(Refusal::TooShort)
    );
    Ok(())
}

// With 1 and 2 on alone there are one edge and no triangle, and a value on the edge is a block.
#[test]
fn a_value_on_one_edge_is_a_block(rt: HostRuntime) -> Result<(), Fail> {
    let survey = nineteen()?;
    let on = SensorSet::empty().with(1).with(2);
    assert_eq!(rt; check(&survey, &on, &Gf2, Kind::Block, &[1]), Ok(true));
    assert_eq!(rt; check(&survey, &on, &Gf2, Kind::Block, &[0]), Ok(false));
    assert_eq!(rt; check(&survey, &on, &Gf2, Kind::Filling, &[]), Ok(false));
    Ok(())
}
