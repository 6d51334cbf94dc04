// Why a call was turned down (docs/NUMBERS.md).
ghost use Rattle.std.specs.Prelude.{◌≡◌, ◌≢◌, MatchOption};
ghost use Rattle.answer.specs.Refusal.{refusal_number, refusal_node};

use std::error::Error;
use std::fmt;

#[derive(Clone, Copy, Debug, PartialEq, Eq)]
pub enum Refusal {
    // over 128 keys, 32 areas, 32 services or 64 session nodes
    TooManyEntries,
    // the same node and algorithm twice in the keys
    SameKeyTwice,
    // no area and no service
    NoNodes,
    // a needed node has no key
    KeyMissing(u16),
    // a node has a key of the other algorithm only
    OtherAlgorithm,
    IndividualKeyWithDes,
    DesWithoutArea,
    // DES, no service that bears a key
    DesWithoutKeyedService,
    // the transaction number is at or above the session's ceiling
    NumberExhausted,
    // not a multiple of 8 bytes, or an empty package
    NotWholeBlocks,
    TooShort,
    TooLong,
    // the MAC differs, or the 1B or 2B that is checked
    MacDiffers,
    IdDiffers,
    // the number is not above the session's
    NumberNotAbove,
    OutputTooSmall,
    // an unknown mark, a wrong fixed length, an unknown algorithm in a key entry or of a search
    BadMarkOrLength,
}

impl Refusal {
    // Its number, from 1 to 17.
    pub fn number(self) -> u8
        ensures { result ≡ refusal_number self }
    {
        match self {
            Refusal::TooManyEntries => 1,
            Refusal::SameKeyTwice => 2,
            Refusal::NoNodes => 3,
            Refusal::KeyMissing(_) => 4,
            Refusal::OtherAlgorithm => 5,
            Refusal::IndividualKeyWithDes => 6,
            Refusal::DesWithoutArea => 7,
            Refusal::DesWithoutKeyedService => 8,
            Refusal::NumberExhausted => 9,
            Refusal::NotWholeBlocks => 10,
            Refusal::TooShort => 11,
            Refusal::TooLong => 12,
            Refusal::MacDiffers => 13,
            Refusal::IdDiffers => 14,
            Refusal::NumberNotAbove => 15,
            Refusal::OutputTooSmall => 16,
            Refusal::BadMarkOrLength => 17,
        }
    }

    // The node that lacks a key; none where another condition refused.
    pub fn node(self) -> Option<u16>
        ensures { MatchOption result ((refusal_number self ≢ 4) × (refusal_node self ≡ 0)) (λ node. self ≡ Refusal.KeyMissing node) }
    {
        match self {
            Refusal::KeyMissing(node) => Some(node),
            _ => None,
        }
    }
}

impl fmt::Display for Refusal {
    fn fmt<W: fmt::Write>(&self, f: &mut fmt::Formatter<W>) -> fmt::Result {
        f.write_str(match self {
            Refusal::TooManyEntries => "too many keys, areas, services or session nodes",
            Refusal::SameKeyTwice => "the same node and algorithm twice in the keys",
            Refusal::NoNodes => "no area and no service",
            Refusal::KeyMissing(node) => return write!(f, "node {node:04x} has no key"),
            Refusal::OtherAlgorithm => "a node has a key of the other algorithm only",
            Refusal::IndividualKeyWithDes => "an individual key with DES",
            Refusal::DesWithoutArea => "DES without an area",
            Refusal::DesWithoutKeyedService => "DES without a service that bears a key",
            Refusal::NumberExhausted => "the transaction number is at or above the ceiling",
            Refusal::NotWholeBlocks => "not whole blocks of 8 bytes, or an empty package",
            Refusal::TooShort => "too short",
            Refusal::TooLong => "too long",
            Refusal::MacDiffers => "the MAC, or the challenge that is checked, differs",
            Refusal::IdDiffers => "the transaction ID differs",
            Refusal::NumberNotAbove => "the number is not above the session's",
            Refusal::OutputTooSmall => "the output is too small",
            Refusal::BadMarkOrLength => "an unknown mark, or a wrong fixed length",
        })
    }
}

impl Error for Refusal {}

#[cfg(test)]
mod tests {
    use super::*;
    use std::test::Fail;

    #[test]
    fn says_what_refused(rt: HostRuntime) -> Result<(), Fail> {
        let alloc = rt.alloc();
        let missing = format!(in alloc; "{}", Refusal::KeyMissing(0x1008))?;
        assert_eq!(rt; missing.as_str(), "node 1008 has no key");
        let differs = format!(in alloc; "{}", Refusal::MacDiffers)?;
        assert_eq!(rt;
            differs.as_str(),
            "the MAC, or the challenge that is checked, differs"
        );
        Ok(())
    }
}
