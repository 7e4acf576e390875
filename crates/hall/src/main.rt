// The console: answers commands from standard input, line by line.
#![tactic(auto)]

mod answers;
mod fields;
mod lists;
mod numbers;
mod quote;
mod session;
mod storage;

use answers::show_fault;
use matrix::store::Store;
use session::Session;
use sparse::cell::Cell;
use sparse::sparse::Sparse;
use std::io;
use std::io::{BufRead, BufReader};
use storage::Kind;
use stores::dense::Dense;
use stores::width::EntryWidth;

// Answers the lines until one asks for another store; none at their end.
fn talk<S: Store>(
    rt: &HostRuntime,
    session: &mut Session,
    store: &mut S,
) -> io::Result<Option<Kind>> {
    // counted, since every loop has to end
    for _ in 0..u64::MAX {
        let mut line = String::new(rt.alloc());
        if session.lines.read_line(&mut line)? == 0 {
            break;
        }
        let line = line.trim_end_matches("\n");
        match session.answer(rt, store, line) {
            Ok(None) => {}
            Ok(kind) => return Ok(kind),
            Err(fault) => show_fault(rt, line, fault)?,
        }
    }
    Ok(None)
}

// Answers the lines on a store of this kind, which is made for them.
fn talk_on(rt: &HostRuntime, session: &mut Session, kind: Kind) -> io::Result<Option<Kind>> {
    match kind {
        Kind::Dense { width, bytes } => {
            let mut bytes = vec![in rt.alloc(); 0u8; bytes]?;
            let mut store = Dense::new(width, &mut bytes);
            talk(rt, session, &mut store)
        }
        Kind::Sparse { cells, heads } => {
            let mut cells = vec![in rt.alloc(); Cell::default(); cells]?;
            let mut heads = vec![in rt.alloc(); 0u16; heads]?;
            let mut store = Sparse::new(&mut cells, &mut heads);
            talk(rt, session, &mut store)
        }
    }
}

// At first there is a dense store of 8 bits over no bytes.
fn main(rt: HostRuntime) -> io::Result<()> {
    let mut session = Session {
        lines: BufReader::new(rt.alloc(), rt.stdin())?,
        text: Vec::new(rt.alloc()),
        roster: None,
        field: None,
    };
    let mut next = EntryWidth::try_from(8)
        .ok()
        .map(|width| Kind::Dense { width, bytes: 0 });
    // counted, since every loop has to end
    for _ in 0..u64::MAX {
        let Some(kind) = next else {
            break;
        };
        next = talk_on(&rt, &mut session, kind)?;
    }
    Ok(())
}
