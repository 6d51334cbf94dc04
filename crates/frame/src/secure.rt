// One call for both schemes, by scheme mark: 1 is DES, 2 is AES, every other is refused (the framing half of mod.rs). The parameters are those of C:
// numbers and byte slices. Each call is its own match on the scheme, which is shorter than a function that would be given both calls.
ghost use Rattle.std.specs.Prelude.{◌≡◌, length};
ghost use Rattle.answer.specs.Outcome.{answer_number, answer_length, answer_transaction, answer_padding, Meets};
ghost use Rattle.frame.specs.Forecast.{forecasting};
ghost use Rattle.frame.specs.Scheme.{sealing, opening, responding};

use crate::{des, v2_aes};
use answer::{Accepted, Answer, Scheme};

// Scheme marks, as callers pass them.
pub use answer::{AES128, DES};

// Seals a command; the answer has its size and its padding. The credentials are the session key for DES; cipher key, MAC key and Challenge 3C
// for AES.
pub fn encrypt_command(
    scheme: u8,
    code: u8,
    number: u16,
    id: &[u8],
    credentials: &[u8],
    payload: &[u8],
    out: &mut [u8],
) -> Answer
    ensures { Meets (sealing scheme credentials.now code number id.now payload.now (length out.old)) result out.old out.new }
{
    match Scheme::try_from(scheme)? {
        Scheme::Des => {
            des::encrypt_secure_request_des(code, number, id, credentials, payload, out)
        }
        Scheme::Aes128 => v2_aes::encrypt_secure_request_v2_aes128(
            code,
            number,
            id,
            credentials,
            payload,
            out,
        ),
    }
}

// Opens a sealed command or response: in a response frame, what follows the length byte and the code.
pub fn decrypt_response(
    scheme: u8,
    code: u8,
    id: &[u8],
    credentials: &[u8],
    data: &[u8],
    out: &mut [u8],
) -> Answer
    ensures { Meets (opening scheme credentials.now code id.now «data».now (length out.old)) result out.old out.new }
{
    match Scheme::try_from(scheme)? {
        Scheme::Des => des::decrypt_secure_response_des(code, id, credentials, data, out),
        Scheme::Aes128 => {
            v2_aes::decrypt_secure_response_v2_aes128(code, id, credentials, data, out)
        }
    }
}

// Makes a response frame: a length byte, which counts itself, the code, then the sealed response. The answer has its size, and the padding of
// what is sealed in it.
pub fn build_secure_response_frame(
    scheme: u8,
    code: u8,
    number: u16,
    id: &[u8],
    credentials: &[u8],
    payload: &[u8],
    out: &mut [u8],
) -> Answer
    ensures { Meets (responding scheme credentials.now code number id.now payload.now (length out.old)) result out.old out.new }
{
    match Scheme::try_from(scheme)? {
        Scheme::Des => {
            des::build_secure_response_frame_des(code, number, id, credentials, payload, out)
        }
        Scheme::Aes128 => v2_aes::build_secure_response_frame_v2_aes128(
            code,
            number,
            id,
            credentials,
            payload,
            out,
        ),
    }
}

// The size of a sealed payload of payload_len bytes: what encrypt_command writes.
pub fn forecast(scheme: u8, payload_len: usize) -> Answer
    ensures { (answer_number result ≡ (forecasting scheme payload_len).number) × (answer_length result ≡ (forecasting scheme payload_len).size) × (answer_transaction result ≡ 0) × (answer_padding result ≡ 0) }
{
    match Scheme::try_from(scheme)? {
        Scheme::Des => Ok(Accepted::sized(des::size_des(payload_len)? as u16)),
        Scheme::Aes128 => Ok(Accepted::sized(v2_aes::size_aes(payload_len)? as u16)),
    }
}
