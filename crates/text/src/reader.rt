// A reader of a survey's text: it hands out the tokens one after another, and what a line is made of.
ghost use Rattle.std.specs.Prelude.{◌≡◌, length, drop, IfSome};
ghost use Rattle.std.specs.Option.{option_map};
ghost use Rattle.refusal.specs.Outcomes.{outcome};
ghost use Rattle.text.specs.Lines.{IsMark, fitted};
ghost use Rattle.text.specs.Reading.{byte, formed, a_number, a_list};
ghost use Rattle.text.specs.Tokens.{part_of, part_first, size_of};

use crate::token::{Token, next_token};
use refusal::Refusal;
use std::marker::Model;
use survey::sensor_list::SensorList;

// The text has been read up to the place `at`, which stands beside it since a token holds its place. A clause sees the
// bytes that are left.
#[derive(Drop)]
pub(crate) struct Reader<'a> {
    text: &'a [u8],
    at: usize,
}

impl<'a> Model for Reader<'a> {
    ghost use Rattle.std.specs.Prelude.{ℕ, List, ◌≤◌, length, drop};

    ghost Value = { List ℕ };

    ghost view = { λ r. drop r.at r.text.now };

    ghost invariant = { λ r. r.at ≤ length r.text.now };
}

impl<'a> Reader<'a> {
    pub(crate) fn new(text: &'a [u8]) -> Reader<'a>
        ensures { result ≡ text.now }
    {
        Reader { text, at: 0 }
    }

    // How many bytes are left.
    pub(crate) fn left(&self) -> usize
        ensures { result ≡ length self.now }
    {
        self.text.len() - self.at
    }

    // The next token; none at the end of the text, or where no token begins.
    #[inline(always)]
    fn token(&mut self) -> Option<Token<'a>>
        ensures part { option_map part_of result ≡ part_first self.old }
        ensures behind { IfSome result (λ t. self.new ≡ drop (size_of t) self.old) }
    {
        let token = next_token(self.text, self.at)?;
        self.at += token.text().len();
        Some(token)
    }

    // The letter, one of the four marks: a token keeps the character that it was told apart by, and `requires` says which
    // characters are a token by themselves.
    pub(crate) fn letter(&mut self, letter: char) -> Result<(), Refusal>
        requires { IsMark letter }
        ensures { outcome (λ _. self.new) result ≡ formed (byte letter self.old) }
    {
        match self.token() {
            Some(Token::Mark { letter: found, .. }) if found == letter => Ok(()),
            _ => Err(Refusal::MalformedLine),
        }
    }

    // A line end.
    pub(crate) fn line_end(&mut self) -> Result<(), Refusal>
        ensures { outcome (λ _. self.new) result ≡ formed (byte 10 self.old) }
    {
        match self.token() {
            Some(Token::LineEnd { .. }) => Ok(()),
            _ => Err(Refusal::MalformedLine),
        }
    }

    // A number.
    pub(crate) fn number(&mut self) -> Result<u16, Refusal>
        ensures { outcome (λ v. record { got = v; rest = self.new }) result ≡ formed (a_number self.old) }
    {
        match self.token() {
            Some(Token::Number { value, .. }) => Ok(value),
            _ => Err(Refusal::MalformedLine),
        }
    }

    // A list of numbers up to the end of its line; none where there are more than sensors can be.
    pub(crate) fn list(&mut self) -> Result<Option<SensorList>, Refusal>
        ensures { outcome (λ list. record { got = list; rest = self.new }) result ≡ fitted (formed (a_list self.old)) }
    {
        let mut numbers = SensorList::new();
        let mut fits = true;
        loop {
            match self.token() {
                Some(Token::Number { value, .. }) => {
                    fits &= numbers.push(value);
                }
                Some(Token::Mark { letter: ';', .. }) => break,
                _ => return Err(Refusal::MalformedLine),
            }
        }
        self.line_end()?;
        Ok(fits.then_some(numbers))
    }
}
