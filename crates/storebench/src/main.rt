// One operation on a store, at a size, for counting instructions: storebench WHAT SIZE.
#![tactic(auto)]

use field::gfp::GfP;
use matrix::grid::Grid;
use matrix::store::Store;
use refusal::Refusal;
use sparse::cell::Cell;
use sparse::sparse::Sparse;
use std::alloc::AllocError;
use std::{env, io};
use stores::dense::Dense;
use stores::width::EntryWidth;

// What is done: `Begin`, `Fill`, `Add` and `Low` in a sparse store, `Dense` and `Next` in a dense one.
#[derive(Clone, Copy)]
enum Operation {
    Begin,
    Fill,
    Add,
    Low,
    Dense,
    Next,
}

// Any other word is a filling alone.
impl From<&str> for Operation {
    fn from(word: &str) -> Operation {
        match word {
            "begin" => Operation::Begin,
            "add" => Operation::Add,
            "low" => Operation::Low,
            "dense" => Operation::Dense,
            "next" => Operation::Next,
            _ => Operation::Fill,
        }
    }
}

// Why there is no answer.
#[derive(Drop)]
enum Stop {
    Refused(Refusal),
    NoMemory(AllocError),
}

impl From<Refusal> for Stop {
    fn from(refusal: Refusal) -> Stop {
        Stop::Refused(refusal)
    }
}

impl From<AllocError> for Stop {
    fn from(error: AllocError) -> Stop {
        Stop::NoMemory(error)
    }
}

// Fills the columns 1 and 2 with `size` entries each, from the last row up, so that each put is at the head of its chain.
fn two_columns<S: Store>(store: &mut S, size: u32) -> Result<(), Refusal> {
    store.begin(65535, 2)?;
    for row in (1..=size).rev() {
        let row = row.min(20000);
        store.put(3 * row, 1, 1)?;
        store.put(2 * row, 2, 1)?;
    }
    Ok(())
}

// The columns, and then the operation that is counted.
fn on_sparse(store: &mut Sparse<'_>, what: Operation, size: u32) -> Result<u64, Refusal> {
    if let Operation::Begin = what {
        store.begin(65535, size)?;
        return Ok(store.nonzero());
    }
    two_columns(store, size)?;
    match what {
        Operation::Low => return Ok(store.last_nonzero(1, 65535).map_or(0, u64::from)),
        Operation::Add => store.add_multiple(&GfP::new(251)?, 1, 2, 3)?,
        _ => {}
    }
    Ok(store.nonzero())
}

fn sparse(rt: &HostRuntime, what: Operation, size: u32) -> Result<u64, Stop> {
    let mut cells = vec![in rt.alloc(); Cell::default(); 60000]?;
    let mut heads = vec![in rt.alloc(); 0u16; 60000]?;
    let mut store = Sparse::new(&mut cells, &mut heads);
    Ok(on_sparse(&mut store, what, size)?)
}

// The one nonzero entry of a column of `size` rows, found from its first row.
fn on_dense(bytes: &mut [u8], what: Operation, size: u32) -> Result<u64, Refusal> {
    let mut store = Dense::new(EntryWidth::try_from(1)?, bytes);
    store.begin(size, 1)?;
    store.put(size, 1, 1)?;
    match what {
        Operation::Next => Ok(store.next_nonzero(1, 1).map_or(0, u64::from)),
        _ => Ok(store.nonzero()),
    }
}

fn dense(rt: &HostRuntime, what: Operation, size: u32) -> Result<u64, Stop> {
    let mut bytes = vec![in rt.alloc(); 0u8; 1000000]?;
    Ok(on_dense(&mut bytes, what, size)?)
}

// What the command line asks for.
fn read_args(mut args: env::Args) -> Option<(Operation, u32)> {
    let _ = args.next();
    let what = args.next()?;
    let size = args.next()?.as_str().parse().ok()?;
    Some((Operation::from(what.as_str()), size))
}

fn main(rt: HostRuntime) -> io::Result<()> {
    let Some((what, size)) = read_args(env::args(&rt)?) else {
        return println!(rt; "storebench WHAT SIZE");
    };
    let outcome = match what {
        Operation::Dense | Operation::Next => dense(&rt, what, size),
        _ => sparse(&rt, what, size),
    };
    match outcome {
        Ok(answer) => println!(rt; "{answer}"),
        Err(Stop::Refused(refusal)) => {
            let number = refusal.number();
            println!(rt; "{number}")
        }
        Err(Stop::NoMemory(error)) => Err(error.into()),
    }
}
