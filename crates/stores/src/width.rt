// How many bits an entry has.
ghost use Rattle.std.specs.Prelude.{◌≡◌, ◌^◌, ◌<◌};
ghost use Rattle.refusal.specs.Outcomes.{outcome};
ghost use Rattle.stores.specs.Packed.{entry_width, per_byte_of};
ghost use Rattle.stores.specs.Widths.{bits_of};

use refusal::Refusal;

// So many bits that a byte holds whole entries.
#[derive(Clone, Copy, Debug, PartialEq, Eq)]
pub enum EntryWidth {
    One = 1,
    Two = 2,
    Four = 4,
    Eight = 8,
}

impl TryFrom<u32> for EntryWidth {
    type Error = Refusal;

    ghost try_from_gives = { λ w r. outcome bits_of r ≡ entry_width w };

    fn try_from(w: u32) -> Result<Self, Refusal> {
        match w {
            1 => Ok(EntryWidth::One),
            2 => Ok(EntryWidth::Two),
            4 => Ok(EntryWidth::Four),
            8 => Ok(EntryWidth::Eight),
            _ => Err(Refusal::EntryWidth),
        }
    }
}

impl EntryWidth {
    // A width of 1, 2, 4 or 8 bits: `try_from` by its older name.
    pub fn check(w: u32) -> Result<EntryWidth, Refusal>
        ensures { outcome bits_of result ≡ entry_width w }
    {
        EntryWidth::try_from(w)
    }

    // The number of bits. By a shift, as the number of codes in a byte: `self as u32` is looked up in a table at each entry, and `8 / bits` a
    // division.
    pub(crate) fn bits(self) -> u32
        ensures { result ≡ bits_of self }
    {
        8 >> self.doublings()
    }

    // What the codes of so many bits are below.
    pub(crate) fn bound(self) -> u32
        ensures { result ≡ 2 ^ bits_of self }
    {
        1 << self.bits()
    }

    // The number of codes in a byte.
    pub(crate) fn per_byte(self) -> u32
        ensures { result ≡ per_byte_of (bits_of self) }
    {
        1 << self.doublings()
    }

    // How often 1 is doubled to that number.
    fn doublings(self) -> u32
        ensures power { 2 ^ result ≡ per_byte_of (bits_of self) }
        ensures small { result < 4 }
    {
        match self {
            EntryWidth::One => 3,
            EntryWidth::Two => 2,
            EntryWidth::Four => 1,
            EntryWidth::Eight => 0,
        }
    }
}
