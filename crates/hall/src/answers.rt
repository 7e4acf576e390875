// Why a line comes to nothing, and how surveys, rosters and lists are printed.
use refusal::Refusal;
use std::alloc::AllocError;
use std::num::ParseIntError;
use std::{fmt, io};
use survey::plan::Survey;
use verifier::roster::Roster;
use verifier::sensor::State;

#[derive(Debug, Drop)]
pub enum Fault {
    // the line is no command
    Unknown,
    NoRoster,
    NoField,
    NoMemory,
    Refused(Refusal),
    Io(io::Error),
}

impl From<Refusal> for Fault {
    fn from(refusal: Refusal) -> Fault {
        Fault::Refused(refusal)
    }
}

impl From<ParseIntError> for Fault {
    fn from(_error: ParseIntError) -> Fault {
        Fault::Unknown
    }
}

impl From<io::Error> for Fault {
    fn from(error: io::Error) -> Fault {
        Fault::Io(error)
    }
}

impl From<AllocError> for Fault {
    fn from(error: AllocError) -> Fault {
        Fault::Io(io::Error::from(error))
    }
}

impl fmt::Display for Fault {
    fn fmt<W: fmt::Write>(&self, f: &mut fmt::Formatter<W>) -> fmt::Result {
        match self {
            Fault::Unknown => f.write_str("what?"),
            Fault::NoRoster => f.write_str("no roster"),
            Fault::NoField => f.write_str("no field"),
            Fault::NoMemory => f.write_str("no memory"),
            Fault::Refused(refusal) => refusal.fmt(f),
            Fault::Io(error) => error.fmt(f),
        }
    }
}

// Prints why the line came to nothing; where the console itself failed, hands that on.
pub fn show_fault(rt: &HostRuntime, line: &str, fault: Fault) -> io::Result<()> {
    match fault {
        Fault::Io(error) => Err(error),
        // in words, since `{fault}` takes a tenth more instructions a line
        Fault::Unknown => println!(rt; "what? {line}"),
        _ => println!(rt; "{fault}"),
    }
}

// A list's items, each behind a space.
#[derive(Clone, Copy)]
pub struct Spaced<'a, T>(pub &'a [T]);

impl<'a, T: fmt::Display> fmt::Display for Spaced<'a, T> {
    fn fmt<W: fmt::Write>(&self, f: &mut fmt::Formatter<W>) -> fmt::Result {
        for item in self.0 {
            write!(f, " {item}")?;
        }
        Ok(())
    }
}

// What a survey holds.
pub fn show_survey(rt: &HostRuntime, survey: &Survey) -> Result<(), Fault> {
    let n = survey.count();
    let all = survey.all();
    let links = survey.edges_among(&all);
    let triangles = survey.triangles_among(&all);
    println!(rt; "n {n} links {links} triangles {triangles}")?;
    println!(rt; "fence{}", Spaced(survey.fence()))?;
    Ok(())
}

// A roster's sensors, one letter each.
#[derive(Clone, Copy)]
struct Letters<'a>(&'a Roster);

impl<'a> fmt::Display for Letters<'a> {
    fn fmt<W: fmt::Write>(&self, f: &mut fmt::Formatter<W>) -> fmt::Result {
        for x in 1..=self.0.survey().count() {
            // as text, since each letter as a character takes twice the instructions
            match self.0.state(x) {
                Some(State::Fence) => f.write_str("F")?,
                Some(State::On) => f.write_str("1")?,
                Some(State::Off) => f.write_str("0")?,
                None => {}
            }
        }
        Ok(())
    }
}

// Shows the states of a roster's sensors.
pub fn show_roster(rt: &HostRuntime, roster: &Roster) -> Result<(), Fault> {
    println!(rt; "{}", Letters(roster))?;
    Ok(())
}
