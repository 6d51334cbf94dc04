// The fields of a case: byte strings in hex, and numbers in decimal.
ghost use Rattle.std.specs.Prelude.{◌≡◌, ◌≢◌, ◌==◌, ◌≤◌, ◌⊎◌, ℕ, List, length, map, slice_index};
ghost use Rattle.std.specs.Prelude.{IfOk, IfErr, IfSome, IsErrOf, IsOkAnd, IsSomeAnd, MatchOption};
ghost use Rattle.std.specs.List.{slice_split};
ghost use Rattle.hex.specs.Hex.{IsBytes};
ghost use Rattle.hex.specs.declared.error.FromHexError.TheVariants.{OutOfMemory};
ghost use Rattle.textfile.specs.Field.{HasNoBytes, text_at, written};
ghost use Rattle.textfile.specs.declared.field.FieldError.TheVariants.{Malformed, NoMemory};

use hex::FromHexError;
use std::alloc::{AllocError, Global};
use std::str::FromStr;

// Why a field is not read: it is not what it has to be, or there is no memory for it.
#[derive(Clone, Copy, Debug, PartialEq, Eq)]
pub enum FieldError {
    Malformed,
    NoMemory,
}

impl From<AllocError> for FieldError {
    ghost from_gives = { λ _ r. r ≡ NoMemory };

    fn from(_error: AllocError) -> FieldError {
        FieldError::NoMemory
    }
}

impl From<FromHexError> for FieldError {
    ghost from_gives = { λ e r. (r ≡ NoMemory) ⊎ ((e ≢ OutOfMemory) × (r ≡ Malformed)) };

    fn from(error: FromHexError) -> FieldError {
        match error {
            FromHexError::OutOfMemory => FieldError::NoMemory,
            _ => FieldError::Malformed,
        }
    }
}

// The fields of a line, which single blanks part.
#[derive(Drop)]
pub struct Fields<'a> {
    pub texts: Vec<&'a str>,
}

impl<'a> Fields<'a> {
    pub fn new(alloc: Global, line: &'a str) -> Result<Fields<'a>, AllocError>
        ensures { IfOk result (λ f. map (λ x. x.now) f.texts.items ≡ slice_split (λ b. b == 32) line.now) }
    {
        let texts = line.split(' ').collect(alloc)?;
        Ok(Fields { texts })
    }

    // Field k, counted from 0.
    pub fn get(&self, k: usize) -> Result<&'a str, FieldError>
        ensures { MatchOption (text_at self.now k) (result ≡ Err Malformed) (λ t. IsOkAnd result (λ f. f.now ≡ t)) }
    {
        self.texts.get(k).copied().ok_or(FieldError::Malformed)
    }

    // The bytes that field k has in hex: '-' if there are none, and else two digits for each, in lower case.
    pub fn bytes(&self, k: usize) -> Result<Vec<u8>, FieldError>
        ensures ok { IfOk result (λ v. text_at self.now k ≡ Some (written v.items)) }
        ensures malformed { IsErrOf result Malformed → HasNoBytes (text_at self.now k) }
    {
        decode(*self.texts.allocator(), self.get(k)?)
    }

    // The bytes that field k has, if these are `most` or fewer.
    pub fn bytes_within(&self, k: usize, most: usize) -> Result<Vec<u8>, FieldError>
        ensures ok { IfOk result (λ v. (length v.items ≤ most) × (text_at self.now k ≡ Some (written v.items))) }
        ensures malformed { IsErrOf result Malformed → (bytes : List ℕ) → IsBytes bytes → length bytes ≤ most → text_at self.now k ≢ Some (written bytes) }
    {
        let bytes = self.bytes(k)?;
        if most < bytes.len() {
            return Err(FieldError::Malformed);
        }
        Ok(bytes)
    }

    // The N bytes that field k has.
    pub fn array<const N: usize>(&self, k: usize) -> Result<[u8; N], FieldError>
        ensures ok { IfOk result (λ a. text_at self.now k ≡ Some (written a)) }
        ensures malformed { IsErrOf result Malformed → (a : List ℕ) → IsBytes a → length a ≡ N → text_at self.now k ≢ Some (written a) }
    {
        let bytes = self.bytes(k)?;
        <[u8; N]>::try_from(bytes.as_slice()).map_err(|_| FieldError::Malformed)
    }

    // The number that field k is in decimal, in digits alone: "+5" is malformed.
    pub fn number<T: FromStr>(&self, k: usize) -> Result<T, FieldError>
    where
        T::Err: Drop,
        ensures ok { IfOk result (λ n. IsSomeAnd (text_at self.now k) (λ t. (slice_index t 0 ≢ 43) × T.from_str_gives t (Ok n))) }
        ensures malformed { IfErr result (λ e. (e ≡ Malformed)
            × IfSome (text_at self.now k) (λ t. (slice_index t 0 ≡ 43) ⊎ ((f : T.Err) × T.from_str_gives t (Err f)))) }
    {
        let field = self.get(k)?;
        if field.starts_with('+') {
            return Err(FieldError::Malformed);
        }
        field.parse().map_err(|_| FieldError::Malformed)
    }
}

fn decode(alloc: Global, field: &str) -> Result<Vec<u8>, FieldError>
    ensures ok { IfOk result (λ v. field.now ≡ written v.items) }
    ensures malformed { IsErrOf result Malformed → HasNoBytes (Some field.now) }
{
    if field == "-" {
        return Ok(Vec::new(alloc));
    }
    let bytes = hex::decode(alloc, field)?;
    let again = hex::encode(alloc, bytes.as_slice())?;
    if bytes.is_empty() || again.as_str() != field {
        return Err(FieldError::Malformed);
    }
    Ok(bytes)
}

#[cfg(test)]
mod tests {
    use super::*;
    use std::test::Fail;

    // The key is that of FIPS 197, appendix B.
    #[test]
    fn reads_fields(rt: HostRuntime) -> Result<(), Fail> {
        let line = "2b7e151628aed2a6abf7158809cf4f3c - 0065535 65536 +5 2B";
        let fields = Fields::new(rt.alloc(), line)?;
        assert_eq!(rt; fields.texts.len(), 6);
        let key = *b"\x2b\x7e\x15\x16\x28\xae\xd2\xa6\xab\xf7\x15\x88\x09\xcf\x4f\x3c";
        assert_eq!(rt; fields.array(0), Ok(key));
        assert_eq!(rt; fields.array::<8>(0), Err(FieldError::Malformed));
        assert_eq!(rt; fields.bytes_within(0, 16).map(|bytes| bytes.len()), Ok(16));
        assert_eq!(rt;
            fields.bytes_within(0, 15).map(|bytes| bytes.len()),
            Err(FieldError::Malformed)
        );
        assert_eq!(rt; fields.bytes(1).map(|bytes| bytes.len()), Ok(0));
        assert_eq!(rt; fields.number(2), Ok(65535u16));
        for k in 3..7 {
            assert_eq!(rt;
                fields.number::<u16>(k),
                Err(FieldError::Malformed),
                "field {k}"
            );
        }
        assert_eq!(rt;
            fields.bytes(5).map(|bytes| bytes.len()),
            Err(FieldError::Malformed)
        );
        Ok(())
    }
}
