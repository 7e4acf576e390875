// What the command line asks for.
use crate::stop::Stop;
use std::env;
use std::str::FromStr;
use stores::width::EntryWidth;

#[derive(Clone, Copy)]
pub enum StoreKind {
    Sparse,
    Dense(EntryWidth),
}

impl FromStr for StoreKind {
    type Err = Stop;

    fn from_str(word: &str) -> Result<StoreKind, Stop> {
        if word == "sparse" {
            return Ok(StoreKind::Sparse);
        }
        let bits = word.parse::<u32>().map_err(|_| Stop::NoSuchStore)?;
        Ok(StoreKind::Dense(EntryWidth::try_from(bits)?))
    }
}

#[derive(Drop)]
pub struct Asked {
    pub file: String,
    pub order: u16,
    // a word that is read last, so that a fault of the file or the field is told first
    pub store: String,
    pub times: u32,
}

pub fn read_args(mut args: env::Args) -> Option<Asked> {
    let _ = args.next();
    let file = args.next()?;
    let order = args.next()?.as_str().parse().ok()?;
    let store = args.next()?;
    let times = args.next()?.as_str().parse().ok()?;
    Some(Asked {
        file,
        order,
        store,
        times,
    })
}
