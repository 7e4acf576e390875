// Tokens that borrow the text: number columns, marks and line ends, each with its slice and its place.
ghost use Rattle.std.specs.Prelude.{◌≡◌, ◌≤◌, drop, IfSome};
ghost use Rattle.std.specs.Option.{option_map};
ghost use Rattle.text.specs.Tokens.{Stands, part_of, part_first, slice_of, place_of};

use crate::column::number_column;
use crate::symbol::{Symbol, classify};

// The rules of the project ask that each case holds its slice and its place.
#[derive(Clone, Copy, Debug)]
pub enum Token<'a> {
    Number {
        text: &'a [u8],
        at: usize,
        value: u16,
    },
    Mark {
        text: &'a [u8],
        at: usize,
        letter: char,
    },
    LineEnd {
        text: &'a [u8],
        at: usize,
    },
}

// The token at the place `at`; none at the end of the text, or where no token begins. A call would hand it on in memory.
#[inline(always)]
pub fn next_token<'a>(text: &'a [u8], at: usize) -> Option<Token<'a>>
    ensures part { option_map part_of result ≡ part_first (drop at text.now) }
    ensures stands { IfSome result (λ t. Stands text.now at t) }
{
    let letter = *text.get(at)? as char;
    match classify(letter) {
        Symbol::Survey | Symbol::Sensor | Symbol::Fence | Symbol::End => {
            Some(Token::Mark {
                text: &text[at..at + 1],
                at,
                letter,
            })
        }
        Symbol::LineEnd => Some(Token::LineEnd {
            text: &text[at..at + 1],
            at,
        }),
        Symbol::Space | Symbol::Digit(_) => {
            let value = number_column(&text[at..])?;
            Some(Token::Number {
                text: &text[at..at + 4],
                at,
                value,
            })
        }
        Symbol::Other => None,
    }
}

impl<'a> Token<'a> {
    // The token's bytes.
    pub fn text(self) -> &'a [u8]
        ensures { result.now ≡ slice_of self.entry }
    {
        match self {
            Token::Mark { text, .. } | Token::LineEnd { text, .. } | Token::Number { text, .. } =>
                text,
        }
    }

    // The token's place in the text.
    pub fn at(self) -> usize
        ensures { result ≡ place_of self.entry }
    {
        match self {
            Token::Mark { at, .. } | Token::LineEnd { at, .. } | Token::Number { at, .. } => at,
        }
    }
}
