// Challenges and the AES session keys: a case's inputs, and the call. Field 1 says which challenge a case is about; under another name there is no
// call. The calls take different inputs, so each is an arm of a match.
use crate::call::{Wanted, answered};
use crate::field;
use textfile::{FieldError, Fields};

// The fields 2 to 6 of a challenge's case.
#[derive(Drop)]
struct Inputs {
    scheme: u8,
    idm: Vec<u8>,
    keys: Vec<u8>,
    challenge_3c: Vec<u8>,
    // The random, or of a challenge that is read its block.
    text: Vec<u8>,
}

impl Inputs {
    fn read(fields: &Fields) -> Result<Inputs, FieldError> {
        Ok(Inputs {
            scheme: fields.number(2)?,
            idm: field::short(fields, 3)?,
            keys: field::short(fields, 4)?,
            challenge_3c: field::short(fields, 5)?,
            text: field::short(fields, 6)?,
        })
    }
}

pub(crate) fn make(fields: &Fields) -> Result<bool, FieldError> {
    let which = fields.get(1)?;
    let wanted = Wanted::bytes(fields, 7, 8)?;
    let Inputs {
        scheme,
        idm,
        keys,
        challenge_3c,
        text: random,
    } = Inputs::read(fields)?;
    Ok(wanted.is_given(|out| {
        answered(match which {
            "1a" => session::encrypt_challenge1a(scheme, &keys, &idm, &random, out),
            "1b" => session::encrypt_challenge1b(scheme, &keys, &idm, &challenge_3c, &random, out),
            "2a" => session::encrypt_challenge2a(scheme, &keys, &idm, &challenge_3c, &random, out),
            "2b" => session::encrypt_challenge2b(scheme, &keys, &idm, &random, out),
            _ => return None,
        })
    }))
}

pub(crate) fn read(fields: &Fields) -> Result<bool, FieldError> {
    let which = fields.get(1)?;
    let wanted = Wanted::bytes(fields, 7, 8)?;
    let Inputs {
        scheme,
        idm,
        keys,
        challenge_3c,
        text: block,
    } = Inputs::read(fields)?;
    Ok(wanted.is_given(|out| {
        answered(match which {
            "1a" => session::decrypt_challenge1a(scheme, &keys, &idm, &block, out),
            "2a" => session::decrypt_challenge2a(scheme, &keys, &idm, &challenge_3c, &block, out),
            _ => return None,
        })
    }))
}

pub(crate) fn check(fields: &Fields) -> Result<bool, FieldError> {
    let which = fields.get(1)?;
    let wanted = Wanted::value(fields, fields.number(8)?, 0)?;
    let block = field::short(fields, 7)?;
    let Inputs {
        scheme,
        idm,
        keys,
        challenge_3c,
        text: random,
    } = Inputs::read(fields)?;
    Ok(wanted.is_given(|_| {
        answered(match which {
            "1b" => {
                session::verify_challenge1b(scheme, &keys, &idm, &challenge_3c, &random, &block)
            }
            "2b" => session::verify_challenge2b(scheme, &keys, &idm, &random, &block),
            _ => return None,
        })
    }))
}

// The IDm and the keys of a case are the original's: random 2 alone enters.
pub(crate) fn session_keys(fields: &Fields) -> Result<bool, FieldError> {
    let wanted = Wanted::bytes(fields, 4, 5)?;
    field::short(fields, 1)?;
    field::short(fields, 2)?;
    let random = field::short(fields, 3)?;
    Ok(wanted.is_given(|out| answered(session::derive_secure_session_keys(&random, out))))
}
