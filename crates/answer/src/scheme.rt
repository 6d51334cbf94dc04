// The two schemes, and their marks.
ghost use Rattle.std.specs.Prelude.{◌≡◌};
ghost use Rattle.answer.specs.Scheme.{mark_of, HasMark};

use crate::refusal::Refusal;

// The marks, as callers pass them. A key's algorithm has the same numbers.
pub const DES: u8 = 1;

pub const AES128: u8 = 2;

#[derive(Clone, Copy, Debug, PartialEq, Eq)]
pub enum Scheme {
    Des,
    Aes128,
}

impl Scheme {
    // Its mark.
    pub fn mark(self) -> u8
        ensures { result ≡ mark_of self }
    {
        match self {
            Scheme::Des => DES,
            Scheme::Aes128 => AES128,
        }
    }
}

impl TryFrom<u8> for Scheme {
    type Error = Refusal;

    ghost try_from_gives = { HasMark };

    fn try_from(mark: u8) -> Result<Self, Refusal> {
        match mark {
            DES => Ok(Scheme::Des),
            AES128 => Ok(Scheme::Aes128),
            _ => Err(Refusal::BadMarkOrLength),
        }
    }
}
