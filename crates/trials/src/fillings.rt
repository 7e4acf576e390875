// The hub's lists and starting matrix, and one filling on stores of each kind.
use crate::halls::Hub;
use customer::fill::{fill, fill_dense};
use matrix::grid::Grid;
use matrix::put::Put;
use matrix::store::Store;
use sparse::cell::Cell;
use sparse::sparse::Sparse;
use std::iter::successors;
use std::test::Fail;

// How many entries of the grid are not 0, by reading each and by going from one to the next.
fn nonzero<G: Grid>(grid: &G) -> (usize, usize) {
    let mut read = 0usize;
    let mut met = 0usize;
    for column in 1..=5u32 {
        let here = (1..=12u32)
            .filter(|row| grid.entry(*row, column) != 0)
            .count();
        read = read.saturating_add(here);
        let steps = successors(grid.next_nonzero(column, 1), |row| {
            grid.next_nonzero(column, row.saturating_add(1))
        });
        met = met.saturating_add(steps.take(13).count());
    }
    (read, met)
}

#[test]
fn the_hub_has_twenty_entries(rt: HostRuntime) -> Result<(), Fail> {
    let hub = Hub::listed()?;
    assert_eq!(rt; hub.edge_count, 8);
    assert_eq!(rt; hub.triangle_count, 4);
    let grid = hub.grid();
    let (read, met) = nonzero(&grid);
    assert_eq!(rt; read, 20);
    assert_eq!(rt; met, 20);
    assert_eq!(rt; grid.rows(), 12);
    assert_eq!(rt; grid.columns(), 5);
    Ok(())
}

const PUTS: [Put; 4] = [
    Put {
        row: 1,
        column: 1,
        code: 1,
    },
    Put {
        row: 3,
        column: 2,
        code: 1,
    },
    Put {
        row: 1,
        column: 1,
        code: 0,
    },
    Put {
        row: 2,
        column: 2,
        code: 1,
    },
];

#[test]
fn one_filling_serves_dense_and_sparse(rt: HostRuntime) -> Result<(), Fail> {
    let mut bytes = [255u8; 9];
    assert_eq!(rt; fill_dense(1, &mut bytes, 3, 3, &PUTS)?, 2);
    assert_eq!(rt; fill_dense(8, &mut bytes, 3, 3, &PUTS)?, 2);
    let mut cells = [Cell::default(); 2];
    let mut heads = [7u16; 3];
    let mut store = Sparse::new(&mut cells, &mut heads);
    fill(&mut store, 3, 3, &PUTS)?;
    assert_eq!(rt; store.nonzero(), 2);
    assert_eq!(rt; store.entry(2, 2), 1);
    assert_eq!(rt; store.entry(1, 1), 0);
    Ok(())
}
