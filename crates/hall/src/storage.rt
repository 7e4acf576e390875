// Stores: which one was asked for, and the commands on it.
use crate::answers::Fault;
use crate::numbers::{number, split, two_numbers};
use matrix::store::Store;
use refusal::Refusal;
use std::str::FromStr;
use stores::width::EntryWidth;

// A store that was asked for.
#[derive(Clone, Copy)]
pub enum Kind {
    Dense { width: EntryWidth, bytes: usize },
    Sparse { cells: usize, heads: usize },
}

// The store that a line asks for.
impl FromStr for Kind {
    type Err = Fault;

    fn from_str(rest: &str) -> Result<Kind, Fault> {
        let (word, sizes) = split(rest)?;
        let (first, second) = two_numbers(sizes, u32::MAX)?;
        match word {
            "dense" => Ok(Kind::Dense {
                width: EntryWidth::try_from(first)?,
                bytes: second as usize,
            }),
            "sparse" => Ok(Kind::Sparse {
                cells: first as usize,
                heads: second as usize,
            }),
            _ => Err(Fault::Unknown),
        }
    }
}

// The commands on a store are functions of it and not methods, since each store is a type of its own.

// Begins the store with so many rows and columns.
pub fn begin<S: Store>(rt: &HostRuntime, store: &mut S, rest: &str) -> Result<(), Fault> {
    let (rows, columns) = two_numbers(rest, u32::MAX)?;
    store.begin(rows, columns)?;
    println!(rt; "ok")?;
    Ok(())
}

// A put of any number: one that is no code is refused as the store would refuse it, were it one.
fn put_number<S: Store>(store: &mut S, row: u32, column: u32, number: u64) -> Result<(), Refusal> {
    match u16::try_from(number) {
        Ok(code) => store.put(row, column, code),
        Err(_) if (1..=store.rows()).contains(&row) && (1..=store.columns()).contains(&column) => {
            Err(Refusal::CodeTooLarge)
        }
        Err(_) => Err(Refusal::OutsideShape),
    }
}

// Puts a code at a row and a column.
pub fn put<S: Store>(rt: &HostRuntime, store: &mut S, rest: &str) -> Result<(), Fault> {
    let (row, rest) = split(rest)?;
    let (column, code) = split(rest)?;
    let row = number(row, u32::MAX)?;
    let column = number(column, u32::MAX)?;
    put_number(store, row, column, number(code, u64::MAX)?)?;
    println!(rt; "ok")?;
    Ok(())
}

// Shows the entry at a row and a column.
pub fn entry<S: Store>(rt: &HostRuntime, store: &S, rest: &str) -> Result<(), Fault> {
    let (row, column) = two_numbers(rest, u32::MAX)?;
    let code = store.entry(row, column);
    println!(rt; "{code}")?;
    Ok(())
}

// Shows how many rows, columns and nonzero entries there are.
pub fn shape<S: Store>(rt: &HostRuntime, store: &S) -> Result<(), Fault> {
    let rows = store.rows();
    let columns = store.columns();
    let nonzero = store.nonzero();
    println!(rt; "{rows} {columns} nonzero {nonzero}")?;
    Ok(())
}
