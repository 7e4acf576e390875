// A conversation: its lines, the text so far, the roster that was read, the field that was chosen, and the commands on them and on a store.
use crate::answers::{Fault, show_roster, show_survey};
use crate::fields::AnyField;
use crate::lists::show_complex;
use crate::numbers::{number, two_numbers};
use crate::quote::{Quoted, unquoted};
use crate::storage::{Kind, begin, entry, put, shape};
use field::Field;
use matrix::store::Store;
use std::io::{BufReader, Stdin};
use verifier::roster::Roster;
use verifier::roster::calls::read;

#[derive(Drop)]
pub struct Session {
    pub lines: BufReader<Stdin>,
    pub text: Vec<u8>,
    pub roster: Option<Roster>,
    pub field: Option<AnyField>,
}

impl Session {
    // Answers one line; the store that it asks for, if it does.
    pub fn answer<S: Store>(
        &mut self,
        rt: &HostRuntime,
        store: &mut S,
        line: &str,
    ) -> Result<Option<Kind>, Fault> {
        if line.starts_with("#") {
            return Ok(None);
        }
        let Some((word, rest)) = line.split_once(" ") else {
            self.answer_word(rt, store, line)?;
            return Ok(None);
        };
        match word {
            "store" => {
                let kind = rest.parse()?;
                println!(rt; "ok")?;
                return Ok(Some(kind));
            }
            "begin" => begin(rt, store, rest)?,
            "put" => put(rt, store, rest)?,
            "entry" => entry(rt, store, rest)?,
            _ => self.answer_words(rt, word, rest)?,
        }
        Ok(None)
    }

    // Answers a command of one word.
    fn answer_word<S: Store>(
        &mut self,
        rt: &HostRuntime,
        store: &S,
        word: &str,
    ) -> Result<(), Fault> {
        match word {
            "newtext" => {
                self.text.clear();
                Ok(())
            }
            "read" => self.read(rt),
            "roster" => show_roster(rt, self.roster()?),
            "complex" => show_complex(rt, self.roster()?),
            "shape" => shape(rt, store),
            _ => Err(Fault::Unknown),
        }
    }

    // Answers a command on text, roster and field. A number above 65,535 counts as 65,535, which is no code of a field here.
    fn answer_words(&mut self, rt: &HostRuntime, word: &str, rest: &str) -> Result<(), Fault> {
        match word {
            "text" => self.add_text(rt, rest),
            "write" => self.write(rt, rest),
            "field" => self.choose_field(rt, rest),
            "sum" => {
                let (a, b) = two_numbers(rest, u16::MAX)?;
                self.show_code(rt, |field| field.sum(a, b))
            }
            "product" => {
                let (a, b) = two_numbers(rest, u16::MAX)?;
                self.show_code(rt, |field| field.product(a, b))
            }
            "negative" => {
                let a = number(rest, u16::MAX)?;
                self.show_code(rt, |field| field.negative(a))
            }
            "inverse" => {
                let a = number(rest, u16::MAX)?;
                self.show_code(rt, |field| field.inverse(a))
            }
            _ => Err(Fault::Unknown),
        }
    }

    // The roster that was read last.
    fn roster(&self) -> Result<&Roster, Fault> {
        self.roster.as_ref().ok_or(Fault::NoRoster)
    }

    // Adds bytes in quotes to the text.
    fn add_text(&mut self, rt: &HostRuntime, rest: &str) -> Result<(), Fault> {
        let bytes = unquoted(rt.alloc(), rest.as_bytes())?.ok_or(Fault::Unknown)?;
        self.text.extend_from_slice(&bytes)?;
        Ok(())
    }

    // Reads the text as a roster, and shows its survey.
    fn read(&mut self, rt: &HostRuntime) -> Result<(), Fault> {
        let place = read(&mut self.roster, &self.text)?;
        println!(rt; "ok {place}")?;
        show_survey(rt, self.roster()?.survey())
    }

    // Writes the roster to a buffer of so many bytes, and shows all of it.
    fn write(&self, rt: &HostRuntime, rest: &str) -> Result<(), Fault> {
        let length = rest.parse::<usize>()?;
        let roster = self.roster()?;
        let Ok(mut buffer) = vec![in rt.alloc(); b'#'; length] else {
            return Err(Fault::NoMemory);
        };
        match roster.write(&mut buffer) {
            Ok(length) => println!(rt; "ok {length}")?,
            Err(refusal) => println!(rt; "{refusal}")?,
        }
        println!(rt; "buffer {}", Quoted(buffer.as_slice()))?;
        Ok(())
    }

    // Chooses a field, and shows its order.
    fn choose_field(&mut self, rt: &HostRuntime, rest: &str) -> Result<(), Fault> {
        let field: AnyField = rest.parse()?;
        self.field = Some(field);
        let order = field.order();
        println!(rt; "ok {order}")?;
        Ok(())
    }

    // The field that was chosen last.
    fn field(&self) -> Result<&AnyField, Fault> {
        self.field.as_ref().ok_or(Fault::NoField)
    }

    // Shows the code that the field computes.
    fn show_code<F: Fn(&AnyField) -> u16>(&self, rt: &HostRuntime, compute: F) -> Result<(), Fault>
        requires { F.IsAlwaysCallable compute }
    {
        let code = compute(self.field()?);
        println!(rt; "{code}")?;
        Ok(())
    }
}
