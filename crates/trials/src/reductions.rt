// The hub solved over GF(3) in each kind of store, and in one that is full before the end.
use crate::halls::Hub;
use customer::tall::Tall;
use field::gfp::GfP;
use homology::kind::Kind;
use matrix::grid::Grid;
use matrix::store::Store;
use reduction::solve::{Verdict, solve};
use refusal::Refusal;
use sparse::cell::Cell;
use sparse::sparse::Sparse;
use std::process::Abort;
use std::test::Fail;
use stores::dense::Dense;
use stores::width::EntryWidth;

// What solving the hub comes to in the store; nine places for codes, of which the ninth is beyond.
fn solved<S: Store>(store: &mut S, codes: &mut [u16; 9]) -> Result<Verdict, Refusal> {
    let hub = Hub::listed()?;
    let field = GfP::new(3)?;
    solve(&field, &hub.grid(), store, codes)
}

// The filling 1 2 1 1 by four additions, the other places as they were, and the store empty in its shape.
fn is_solved<S: Store>(rt: &impl Abort, store: &mut S) -> Result<(), Fail> {
    let mut codes = [7u16; 9];
    let verdict = solved(store, &mut codes)?;
    assert_eq!(rt; verdict.kind, Kind::Filling);
    assert_eq!(rt; verdict.additions, 4);
    assert_eq!(rt; codes, [1, 2, 1, 1, 7, 7, 7, 7, 7]);
    is_empty(rt, store);
    Ok(())
}

fn is_empty<S: Store>(rt: &impl Abort, store: &S) {
    assert_eq!(rt; store.rows(), 12);
    assert_eq!(rt; store.columns(), 5);
    assert_eq!(rt; store.nonzero(), 0);
}

#[test]
fn each_store_gives_the_same_answer(rt: HostRuntime) -> Result<(), Fail> {
    let mut bytes = [255u8; 60];
    let mut dense = Dense::new(EntryWidth::try_from(8)?, &mut bytes);
    is_solved(&rt, &mut dense)?;
    let mut packed = [255u8; 15];
    let mut narrow = Dense::new(EntryWidth::try_from(2)?, &mut packed);
    is_solved(&rt, &mut narrow)?;
    let mut memory = [9u16; 60];
    let mut tall = Tall::new(&mut memory);
    is_solved(&rt, &mut tall)?;
    let mut cells = [Cell::default(); 26];
    let mut heads = [7u16; 5];
    let mut sparse = Sparse::new(&mut cells, &mut heads);
    is_solved(&rt, &mut sparse)
}

#[test]
fn the_hub_needs_room_for_26_entries(rt: HostRuntime) -> Result<(), Fail> {
    let mut cells = [Cell::default(); 25];
    let mut heads = [7u16; 5];
    let mut sparse = Sparse::new(&mut cells, &mut heads);
    let mut codes = [7u16; 9];
    assert_eq!(rt; solved(&mut sparse, &mut codes), Err(Refusal::StoreFull));
    assert_eq!(rt; codes, [7; 9]);
    is_empty(&rt, &sparse);
    let mut one = [255u8; 8];
    let mut narrow = Dense::new(EntryWidth::try_from(1)?, &mut one);
    assert_eq!(rt;
        solved(&mut narrow, &mut codes),
        Err(Refusal::FieldTooLarge)
    );
    let mut short = [255u8; 14];
    let mut dense = Dense::new(EntryWidth::try_from(2)?, &mut short);
    assert_eq!(rt; solved(&mut dense, &mut codes), Err(Refusal::ShapeNotTaken));
    Ok(())
}
