// Sealed AES data: number, cipher payload, cipher MAC (v2_aes.rs). Code, number and ID go side by side, as in the Rust: a struct for them would be
// made of the parameters of a call and taken apart at the next. Nothing allocates: a text that is worked on stands in an array of the most that
// it can have.
ghost use Rattle.std.specs.Prelude.{◌≡◌, ◌+◌, ◌≤◌, ◌++◌, length};
ghost use Rattle.answer.specs.Delivery.{Delivers};
ghost use Rattle.answer.specs.Number.{number_bytes};
ghost use Rattle.answer.specs.Outcome.{Meets};
ghost use Rattle.frame.specs.inner.AesSteps.{bytes_of, HasAll, ChecksAes, ChecksOpenAes, Splits, aes_accepting, aes_trying};
ghost use Rattle.frame.specs.inner.WorkBlock.{HasSize, WritesSealed};
ghost use Rattle.frame.specs.Authentication2.{auth2_opening_aes};
ghost use Rattle.frame.specs.Scheme.{responding};
ghost use Rattle.frame.specs.AesFrame.{aes_iv, aes_mac, aes_sealed, aes_size, aes_sealing, aes_opening};

use crate::command;
use crate::sealed::Sealed;
use answer::{Answer, Refusal};

const AUTHENTICATION2_CODE: u8 = 0x43;

// The longest payload.
const PAYLOAD_MAX: usize = 243;

const CREDENTIALS_LENGTH: usize = 36;

// What a session with AES seals and opens under: 36 bytes.
#[derive(Clone, Copy)]
pub(crate) struct Credentials {
    pub(crate) cipher_key: [u8; 16],
    pub(crate) mac_key: [u8; 16],
    pub(crate) challenge_3c: [u8; 4],
}

impl Credentials {
    // Tests their length alone: they are read once all lengths were tested.
    fn check(bytes: &[u8]) -> Result<(), Refusal>
        ensures { HasAll bytes.now result }
    {
        if bytes.len() != CREDENTIALS_LENGTH {
            return Err(Refusal::BadMarkOrLength);
        }
        Ok(())
    }

    fn parse(bytes: &[u8]) -> Self
        requires { length bytes.now ≡ 36 }
        ensures { bytes_of result ≡ bytes.now }
    {
        Credentials {
            cipher_key: answer::fit(&bytes[..16]),
            mac_key: answer::fit(&bytes[16..32]),
            challenge_3c: answer::fit(&bytes[32..36]),
        }
    }
}

// ---- IV and MAC

// Byte 0 of Challenge 3C plays no part.
fn build_initial_vector_v2_aes128(
    payload_length: usize,
    code: u8,
    number: u16,
    transaction_id: [u8; 6],
    challenge_3c: [u8; 4],
) -> [u8; 16]
    requires { payload_length ≤ 243 }
    ensures { result ≡ aes_iv payload_length code (number_bytes number) transaction_id challenge_3c }
{
    let mut iv = [0u8; 16];
    iv[0] = 0x01;
    iv[1] = (payload_length + 12) as u8;
    iv[2] = code;
    iv[3..5].copy_from_slice(&number.to_le_bytes());
    iv[5..11].copy_from_slice(&transaction_id);
    iv[11..14].copy_from_slice(&challenge_3c[1..]);
    iv
}

// The block in front of the payload is the byte 0x19, IV bytes 1 to 13 and the payload's length in two bytes, the high one first: of a length
// above 65,535 the lowest 16 bits, as the definition has it, so that no length is asked for.
fn calculate_mac_v2_aes128(iv: [u8; 16], payload: &[u8], mac_key: [u8; 16]) -> [u8; 8]
    ensures { result ≡ aes_mac mac_key iv payload.now }
{
    let length = (payload.len() % 65536) as u16;
    let mut b0 = iv;
    b0[0] = 0x19;
    b0[14..].copy_from_slice(&length.to_be_bytes());
    let full = cipher::aes128_cmac_after_block(b0, payload, mac_key);
    answer::fit(&full[..8])
}

// ---- sealing

// The size of a sealed payload of n bytes, if they are not too many.
pub(crate) fn size_aes(n: usize) -> Result<usize, Refusal>
    ensures { HasSize 243 n (aes_size n) result }
{
    if PAYLOAD_MAX < n {
        return Err(Refusal::TooLong);
    }
    Ok(n + 10)
}

// Tests the lengths of a sealing, 17 before 12, and then reads ID and credentials: cipher key, MAC key and Challenge 3C. A caller clears its work
// block after this, so that a refusal costs neither.
fn check_aes(
    id: &[u8],
    credentials: &[u8],
    payload: &[u8],
) -> Result<([u8; 6], Credentials), Refusal>
    ensures { ChecksAes id.now credentials.now (length payload.now) result }
{
    let id = answer::exact::<6>(id)?;
    Credentials::check(credentials)?;
    // 12; what is written has its own size
    size_aes(payload.len())?;
    Ok((id, Credentials::parse(credentials)))
}

// Writes the sealed data over the front of out. The payload is encrypted in out, and its MAC before it goes there. A stream cipher needs no whole
// blocks, so nothing is padded.
fn write_aes(
    code: u8,
    number: u16,
    id: [u8; 6],
    credentials: Credentials,
    payload: &[u8],
    out: &mut [u8],
) -> Sealed
    requires payload_len_bound { length payload.now ≤ 243 }
    requires payload_in_bounds { length payload.now + 10 ≤ length out.old }
    ensures { WritesSealed (aes_sealed (bytes_of credentials) code number id payload.now) (aes_size (length payload.now)) 0 result out.old out.new }
{
    let n = payload.len();
    let end = n + 2;
    let size = n + 10;
    let iv = build_initial_vector_v2_aes128(n, code, number, id, credentials.challenge_3c);
    let mut mac = calculate_mac_v2_aes128(iv, payload, credentials.mac_key);
    out[..2].copy_from_slice(&number.to_le_bytes());
    cipher::copy(payload, &mut out[2..end]);
    cipher::apply_aes128_ofb_parts(&mut out[2..end], &mut mac, credentials.cipher_key, iv);
    out[end..size].copy_from_slice(&mac);
    Sealed { size, padding: 0 }
}

// Seals a command or a response, in a work block. These lines and those of the response frame are des.rt's but for what seals: a trait for it
// would be longer than they are.
pub fn encrypt_secure_request_v2_aes128(
    code: u8,
    number: u16,
    id: &[u8],
    credentials: &[u8],
    payload: &[u8],
    out: &mut [u8],
) -> Answer
    ensures { Meets (aes_sealing credentials.now code number id.now payload.now (length out.old)) result out.old out.new }
{
    let (id, credentials) = check_aes(id, credentials, payload)?;
    let mut work = [0u8; 256];
    let sealed = write_aes(code, number, id, credentials, payload, &mut work);
    answer::deliver(0, sealed.padding, &work[..sealed.size], out)
}

// ---- opening

// The payload goes out, if its MAC is the one wanted. All bytes of the MACs are compared.
fn accept_aes(number: u16, mac: [u8; 8], wanted: [u8; 8], payload: &[u8], out: &mut [u8]) -> Answer
    ensures { Delivers (aes_accepting number mac wanted payload.now (length out.old)) result out.old out.new }
{
    if !cipher::ct_eq(&mac, &wanted) {
        return Err(Refusal::MacDiffers);
    }
    answer::deliver(number, 0, payload, out)
}

// The parts of sealed data, if its length is right: number, cipher payload and cipher MAC.
fn split_sealed(data: &[u8]) -> Result<(u16, &[u8], [u8; 8]), Refusal>
    ensures { Splits «data».now result }
{
    let (number, rest) = data.split_first_chunk::<2>().ok_or(Refusal::TooShort)?;
    let (sealed, mac) = rest.split_last_chunk::<8>().ok_or(Refusal::TooShort)?;
    if PAYLOAD_MAX < sealed.len() {
        return Err(Refusal::TooLong);
    }
    Ok((u16::from_le_bytes(*number), sealed, *mac))
}

// ID of an opening and the parts of its data, if no row by lengths refuses it: 17, 11, 12.
fn check_open_aes<'a>(
    id: &[u8],
    credentials: &[u8],
    data: &'a [u8],
) -> Result<([u8; 6], u16, &'a [u8], [u8; 8]), Refusal>
    ensures { ChecksOpenAes id.now credentials.now «data».now result }
{
    let id = answer::exact::<6>(id)?;
    Credentials::check(credentials)?;
    let (number, sealed, mac) = split_sealed(data)?;
    Ok((id, number, sealed, mac))
}

// Decrypts the parts in a work block, so that a refusal shows nothing of them.
fn decrypt_in_work_block(
    code: u8,
    number: u16,
    id: [u8; 6],
    credentials: Credentials,
    sealed: &[u8],
    mut mac: [u8; 8],
    out: &mut [u8],
) -> Answer
    requires { length sealed.now ≤ 243 }
    ensures { Meets (aes_trying (bytes_of credentials) code id (number_bytes number ++ (sealed.now ++ mac)) (length out.old)) result out.old out.new }
{
    let len = sealed.len();
    let iv = build_initial_vector_v2_aes128(len, code, number, id, credentials.challenge_3c);
    let mut work = [0u8; 256];
    cipher::copy(sealed, &mut work);
    cipher::apply_aes128_ofb_parts(&mut work[..len], &mut mac, credentials.cipher_key, iv);
    let payload = &work[..len];
    let wanted = calculate_mac_v2_aes128(iv, payload, credentials.mac_key);
    accept_aes(number, mac, wanted, payload, out)
}

// Opens a command or a response. The credentials are those of sealing.
pub fn decrypt_secure_response_v2_aes128(
    code: u8,
    id: &[u8],
    credentials: &[u8],
    data: &[u8],
    out: &mut [u8],
) -> Answer
    ensures { Meets (aes_opening credentials.now code id.now «data».now (length out.old)) result out.old out.new }
{
    let (id, number, sealed, mac) = check_open_aes(id, credentials, data)?;
    let credentials = Credentials::parse(credentials);
    decrypt_in_work_block(code, number, id, credentials, sealed, mac, out)
}

// Opens an Authentication 2 response.
pub fn decrypt_authentication2_payload_v2_aes128(
    id: &[u8],
    credentials: &[u8],
    data: &[u8],
    out: &mut [u8],
) -> Answer
    ensures { Meets (auth2_opening_aes credentials.now id.now «data».now (length out.old)) result out.old out.new }
{
    decrypt_secure_response_v2_aes128(AUTHENTICATION2_CODE, id, credentials, data, out)
}

// Makes a response frame in a work block.
pub fn build_secure_response_frame_v2_aes128(
    code: u8,
    number: u16,
    id: &[u8],
    credentials: &[u8],
    payload: &[u8],
    out: &mut [u8],
) -> Answer
    ensures { Meets (responding 2 credentials.now code number id.now payload.now (length out.old)) result out.old out.new }
{
    let (id, credentials) = check_aes(id, credentials, payload)?;
    let mut work = [0u8; 256];
    let sealed = write_aes(code, number, id, credentials, payload, &mut work[2..]);
    let end = command::frame_with_length_prefix(code, sealed.size, &mut work);
    answer::deliver(0, sealed.padding, &work[..end], out)
}
