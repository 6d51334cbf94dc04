// The operations of `frame`: a case's inputs, and the calls. A case has its scheme as a mark, any number: one that is not DES's goes to the AES call.
use crate::call::{Given, Wanted, answered};
use crate::field;
use answer::{Answer, Scheme};
use textfile::{FieldError, Fields};

// The padding rule: what n bytes lack of whole blocks of 8.
fn des_padding(n: usize) -> u8 {
    ((8 - n % 8) % 8) as u8
}

// The padding of a sealed payload of n bytes. A header of 8 bytes changes nothing.
fn padding(scheme: u8, n: usize) -> u8 {
    if scheme == Scheme::Des.mark() {
        des_padding(n)
    } else {
        0
    }
}

// A case of a sealed command or of a response frame.
#[derive(Drop)]
struct Sealing {
    scheme: u8,
    code: u8,
    number: u16,
    id: Vec<u8>,
    credentials: Vec<u8>,
    payload: Vec<u8>,
    wanted: Wanted,
}

impl Sealing {
    fn read(fields: &Fields) -> Result<Sealing, FieldError> {
        let scheme = fields.number(1)?;
        let payload = field::long(fields, 6)?;
        Ok(Sealing {
            scheme,
            code: fields.number(2)?,
            number: fields.number(3)?,
            id: field::short(fields, 4)?,
            credentials: field::short(fields, 5)?,
            wanted: Wanted::bytes(fields, 7, 8)?.padded(padding(scheme, payload.len())),
            payload,
        })
    }
}

// A sealed command, its size as it was foretold, which has no padding to tell, and the command sealed by the scheme's own operation.
pub(crate) fn seal(fields: &Fields) -> Result<bool, FieldError> {
    let Sealing {
        scheme,
        code,
        number,
        id,
        credentials,
        payload,
        wanted,
    } = Sealing::read(fields)?;
    let forecast = Given::from(frame::forecast(scheme, payload.len()));
    let both = wanted.is_given(|out| {
        answered(frame::encrypt_command(scheme, code, number, &id, &credentials, &payload, out))
    });
    let own = wanted.is_given(|out| {
        answered(if scheme == Scheme::Des.mark() {
            frame::encrypt_secure_request_des(code, number, &id, &credentials, &payload, out)
        } else {
            frame::encrypt_secure_request_v2_aes128(code, number, &id, &credentials, &payload, out)
        })
    });
    let size = Given {
        padding: 0,
        ..wanted.answer
    };
    Ok(both && forecast == size && own)
}

// A response frame, and the one made by the scheme's own operation.
pub(crate) fn frame(fields: &Fields) -> Result<bool, FieldError> {
    let Sealing {
        scheme,
        code,
        number,
        id,
        credentials,
        payload,
        wanted,
    } = Sealing::read(fields)?;
    let both = wanted.is_given(|out| {
        answered(frame::build_secure_response_frame(
            scheme,
            code,
            number,
            &id,
            &credentials,
            &payload,
            out,
        ))
    });
    let own = wanted.is_given(|out| {
        answered(if scheme == Scheme::Des.mark() {
            frame::build_secure_response_frame_des(code, number, &id, &credentials, &payload, out)
        } else {
            frame::build_secure_response_frame_v2_aes128(
                code,
                number,
                &id,
                &credentials,
                &payload,
                out,
            )
        })
    });
    Ok(both && own)
}

// An opened response, and the one opened by the scheme's own operation.
pub(crate) fn open(fields: &Fields) -> Result<bool, FieldError> {
    let wanted = Wanted::opened(fields, 6, 7, 8)?;
    let scheme = fields.number(1)?;
    let code = fields.number(2)?;
    let id = field::short(fields, 3)?;
    let credentials = field::short(fields, 4)?;
    let sealed = field::long(fields, 5)?;
    let both = wanted.is_given(|out| {
        answered(frame::decrypt_response(scheme, code, &id, &credentials, &sealed, out))
    });
    let own = wanted.is_given(|out| {
        answered(if scheme == Scheme::Des.mark() {
            frame::decrypt_secure_response_des(code, &id, &credentials, &sealed, out)
        } else {
            frame::decrypt_secure_response_v2_aes128(code, &id, &credentials, &sealed, out)
        })
    });
    Ok(both && own)
}

// What a call makes of a key and a text.
pub(crate) fn under_key<F: Fn(&[u8], &[u8], &mut [u8]) -> Answer>(
    fields: &Fields,
    call: F,
) -> Result<bool, FieldError>
    requires { F.IsAlwaysCallable call }
{
    let wanted = Wanted::bytes(fields, 3, 4)?;
    let key = field::short(fields, 1)?;
    let text = field::long(fields, 2)?;
    Ok(wanted.is_given(|out| answered(call(&key, &text, out))))
}

// Closures pass the arguments on: Rattle refuses the name of a function of another crate in their place.
pub(crate) fn auth2_seal(fields: &Fields) -> Result<bool, FieldError> {
    let wanted = Wanted::bytes(fields, 3, 4)?;
    let key = field::short(fields, 1)?;
    let payload = field::long(fields, 2)?;
    let wanted = wanted.padded(des_padding(payload.len()));
    Ok(wanted.is_given(|out| {
        answered(frame::encrypt_authentication2_payload(&key, &payload, out))
    }))
}

pub(crate) fn auth2_open_des(fields: &Fields) -> Result<bool, FieldError> {
    under_key(
        fields,
        |key, text, out| frame::decrypt_authentication2_payload(key, text, out),
    )
}

pub(crate) fn package(fields: &Fields) -> Result<bool, FieldError> {
    under_key(
        fields,
        |key, text, out| frame::generate_registration_package_des(key, text, out),
    )
}

pub(crate) fn auth2_open_aes(fields: &Fields) -> Result<bool, FieldError> {
    let wanted = Wanted::opened(fields, 4, 5, 6)?;
    let id = field::short(fields, 1)?;
    let credentials = field::short(fields, 2)?;
    let sealed = field::long(fields, 3)?;
    Ok(wanted.is_given(|out| {
        answered(frame::decrypt_authentication2_payload_v2_aes128(&id, &credentials, &sealed, out))
    }))
}
