// The field of the numbers modulo an odd prime.
ghost use Rattle.std.specs.Prelude.{◌≡◌, Ok, MatchResult};
ghost use Rattle.refusal.specs.Outcomes.{outcome};
ghost use Rattle.field.specs.Divisors.{Bezout};
ghost use Rattle.field.specs.Primes.{OddPrime, OddPrime-prop, indivisible, odd_prime_of, modulus};
ghost use Rattle.field.specs.Residues.{prime_field, HalfModulo251};
ghost use Rattle.field.specs.ResidueLaws.{prime_laws};

use crate::Field;
use refusal::Refusal;

#[derive(Clone, Copy, Debug)]
pub struct GfP {
    p: u16,
    ghost odd_prime: { OddPrime p } by { OddPrime-prop p },
}

impl GfP {
    // The field modulo p, for an odd prime p from 3 to 251.
    pub fn new(p: u16) -> Result<GfP, Refusal>
        ensures answer { outcome (λ f. f.p) result ≡ modulus p }
        ensures prime { MatchResult result (λ _. OddPrime p) (λ _. OddPrime p → ⊥) }
    {
        if is_odd_prime(p) {
            Ok(GfP { p })
        } else {
            Err(Refusal::NotOddPrime)
        }
    }
}

// Whether p is an odd prime from 3 to 251.
fn is_odd_prime(p: u16) -> bool
    ensures { result ≡ odd_prime_of p }
{
    (3..=251).contains(&p) && is_indivisible(p)
}

// Whether no number from 2 to p - 1 divides p, by trial division.
fn is_indivisible(p: u16) -> bool
    ensures { result ≡ indivisible p }
{
    (2..p).all(|d| p % d != 0)
}

// The greatest common divisor of a and b, with x and y such that a x + b y comes to it.
fn extended_gcd(a: u16, b: u16) -> (u16, i32, i32)
    ensures { Bezout a b result.0 result.1 result.2 }
{
    if b == 0 {
        (a, 1, 0)
    } else {
        let (divisor, x, y) = extended_gcd(b, a % b);
        let quotient = (a / b) as i32;
        (divisor, y, x - quotient * y)
    }
}

// Each operation has its own guard: it tells that a + b and a b fit 16 bits, which a closure handed to a shared guard would not know.
impl Field for GfP {
    ghost arithmetic = { λ f. prime_field f.p };

    ghost laws = { λ f. prime_laws f.p f.odd_prime };

    fn order(&self) -> u32 {
        self.p as u32
    }

    fn sum(&self, a: u16, b: u16) -> u16 {
        if a < self.p && b < self.p {
            (a + b) % self.p
        } else {
            0
        }
    }

    fn negative(&self, a: u16) -> u16 {
        if a < self.p { (self.p - a) % self.p } else { 0 }
    }

    fn product(&self, a: u16, b: u16) -> u16 {
        if a < self.p && b < self.p {
            a * b % self.p
        } else {
            0
        }
    }

    fn inverse(&self, a: u16) -> u16 {
        if a == 0 || a >= self.p {
            return 0;
        }
        let (_, x, _) = extended_gcd(a, self.p);
        x.rem_euclid(self.p as i32) as u16
    }
}

// The inverse of 2 in GF(251), as the code finds it and as the definitions have it.
pub fn half_modulo_251() -> Result<u16, Refusal>
    ensures answer { result ≡ Ok 126 }
    ensures theorem { HalfModulo251 }
{
    let field = GfP::new(251)?;
    Ok(field.inverse(2))
}
