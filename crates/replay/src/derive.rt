// Key derivation and service codes: a case's inputs, and the call. The stored key lists are searched too.
use crate::call::{Given, Wanted};
use crate::field;
use crate::note::Checks;
use answer::{Refusal, Scheme};
use session::Found;
use textfile::{FieldError, Fields};

// Whether a search of a key list answers by the rule: the place of the first entry of that node and algorithm from 1, or how many there are.
fn search_agrees(keys: &[u8], node: u16, algorithm: u8) -> bool {
    let (entries, rest) = keys.as_chunks::<19>();
    let wanted = if !rest.is_empty() || Scheme::try_from(algorithm).is_err() {
        Err(Refusal::BadMarkOrLength)
    } else if 128 < entries.len() {
        Err(Refusal::TooManyEntries)
    } else {
        let place = entries.iter().position(|entry| {
            u16::from_le_bytes([entry[0], entry[1]]) == node && entry[2] == algorithm
        });
        Ok(match place {
            Some(place) => Found {
                found: true,
                looked: place + 1,
            },
            None => Found {
                found: false,
                looked: entries.len(),
            },
        })
    };
    session::search_key(keys, node, algorithm) == wanted
}

// Searches of a list, each held to its rule: one of a node that hardly any list has; then for each entry of its node and of another, with either
// algorithm and with one that there is not.
fn search(checks: &mut Checks, keys: &[u8]) {
    let (entries, _) = keys.as_chunks::<19>();
    checks.holds(search_agrees(keys, 0xABCD, 1));
    for entry in entries {
        let node = u16::from_le_bytes([entry[0], entry[1]]);
        for algorithm in 1..4 {
            checks.holds(search_agrees(keys, node, algorithm));
            checks.holds(search_agrees(keys, node ^ 0x4000, algorithm));
        }
    }
}

pub(crate) fn keys(fields: &Fields, searches: &mut Checks) -> Result<bool, FieldError> {
    let wanted = Wanted::new(
        fields.number(6)?,
        fields.number(7)?,
        fields.number(8)?,
        field::long(fields, 9)?,
    )?;
    let mark = fields.number(1)?;
    let keys = field::long(fields, 2)?;
    let areas = field::long(fields, 3)?;
    let services = field::long(fields, 4)?;
    let individual = field::short(fields, 5)?;
    search(searches, &keys);
    Ok(wanted.is_given(|out| {
        let derived = session::derive_auth_keys(mark, &keys, &areas, &services, &individual, out);
        Some(match derived {
            Ok(derived) => Given {
                number: 0,
                length: derived.length,
                scheme: derived.scheme.mark(),
                value: 0,
                padding: 0,
            },
            Err(refusal) => Given::from(refusal),
        })
    }))
}

pub(crate) fn key_free(fields: &Fields) -> Result<bool, FieldError> {
    let wanted = Wanted::value(fields, 0, fields.number(2)?)?;
    let service = fields.number(1)?;
    Ok(wanted.is_given(|_| Some(Given::said(0, u16::from(session::is_key_free_service(service))))))
}
