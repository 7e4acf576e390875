// Solves a survey's system some times in one store, for counting instructions and for timing: reducebench FILE ORDER STORE TIMES.
// The order is that of the field, and the store is `sparse` or the number of bits of a dense store's entries.
#![tactic(auto)]

mod asked;
mod runs;
mod stop;

use asked::{Asked, read_args};
use field::gf2::Gf2;
use field::gfp::GfP;
use runs::{Answer, Runs};
use std::{env, fs, io};
use stop::Stop;
use text::read::read_survey;

// Reads the survey, and chooses field and store.
fn find_answer(rt: &HostRuntime, asked: &Asked) -> Result<Answer, Stop> {
    let text = fs::read(rt, asked.file.as_str())?;
    let (survey, _) = read_survey(text.as_slice())?;
    let survey = &survey;
    let times = asked.times;
    if asked.order == 2 {
        let field = &Gf2;
        let runs = Runs {
            rt,
            survey,
            field,
            times,
        };
        return runs.answer(asked.store.parse()?);
    }
    let field = &GfP::new(asked.order)?;
    let runs = Runs {
        rt,
        survey,
        field,
        times,
    };
    runs.answer(asked.store.parse()?)
}

fn main(rt: HostRuntime) -> io::Result<()> {
    let Some(asked) = read_args(env::args(&rt)?) else {
        return println!(rt; "reducebench FILE ORDER STORE TIMES");
    };
    match find_answer(&rt, &asked) {
        Ok(answer) => println!(rt; "{answer}"),
        Err(Stop::Refused(refusal)) => {
            let number = refusal.number();
            println!(rt; "refused {number}")
        }
        Err(Stop::NoSuchStore) => println!(rt; "no such store"),
        Err(Stop::Failed(error)) => Err(error),
    }
}
