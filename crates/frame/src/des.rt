// Secure messaging over DES: Authentication 2, opening, the MAC, sealing (des.rs, in its order; registration packages are in package.rt).
// Nothing allocates: a text that is worked on stands in an array of the most that it can have.
ghost use Rattle.std.specs.Prelude.{◌≡◌, true, ◌+◌, ◌-◌, ◌%◌, ◌≤◌, length, take};
ghost use Rattle.answer.specs.Delivery.{Delivers};
ghost use Rattle.answer.specs.Outcome.{Meets, choose, over};
ghost use Rattle.frame.specs.Padding.{pad_count, pad};
ghost use Rattle.frame.specs.DesFrame.{mac_start, des_mac, mac_holds, des_seal, header, des_sealed, des_size, des_sealing, des_plain, des_opening};
ghost use Rattle.frame.specs.inner.DesSteps.{ChecksDes, ChecksOpenDes, des_accepting};
ghost use Rattle.frame.specs.inner.Response.{header_of, PayloadIn, ParsesOr13, checked_delivering};
ghost use Rattle.frame.specs.inner.WorkBlock.{HasSize, WritesSealed};
ghost use Rattle.frame.specs.Authentication2.{auth2_sealing, auth2_accepting, auth2_opening};
ghost use Rattle.frame.specs.Scheme.{responding};
ghost use Rattle.frame.specs.Trimmed.{is_padding, trim_count, trim, trimmed_opening};

use crate::command;
use crate::sealed::Sealed;
use answer::{Answer, Refusal};

const AUTHENTICATION2_CODE: u8 = 0x13;

// The longest payloads, and the longest data to open.
const PAYLOAD_MAX: usize = 232;

const AUTHENTICATION2_MAX: usize = 240;

const SEALED_MAX: usize = 253;

// Decrypts data over the front of work. A copy of unknown length, here and elsewhere, goes by cipher::copy, which is memcpy in the archive:
// copy_from_slice would be memmove.
fn decrypt_over(key: [u8; 8], data: &[u8], work: &mut [u8])
    requires data_len { length «data».now % 8 ≡ 0 }
    requires data_in_bounds { length «data».now ≤ length work.old }
    ensures { (length (des_plain key «data».now) ≡ length «data».now) × (work.new ≡ over (des_plain key «data».now) work.old) }
{
    let n = data.len();
    cipher::copy(data, work);
    cipher::decrypt_des_cbc_zero_iv(&mut work[..n], key).unwrap();
}

// Opens the plain text of an Authentication 2 response: all but the MAC goes out.
fn accept_authentication2(plain: &[u8], out: &mut [u8]) -> Answer
    ensures { Delivers (auth2_accepting plain.now (length out.old)) result out.old out.new }
{
    if plain.len() < 16 || !check_packet_mac_des(plain, AUTHENTICATION2_CODE) {
        return Err(Refusal::MacDiffers);
    }
    answer::deliver(0, 0, strip_des_response_mac(plain), out)
}

// Opens an Authentication 2 response; header and padding stay.
pub fn decrypt_authentication2_payload(key: &[u8], data: &[u8], out: &mut [u8]) -> Answer
    ensures { Meets (auth2_opening key.now «data».now (length out.old)) result out.old out.new }
{
    let key = answer::exact::<8>(key)?;
    let n = data.len();
    if n % 8 != 0 {
        return Err(Refusal::NotWholeBlocks);
    }
    if SEALED_MAX < n {
        return Err(Refusal::TooLong);
    }
    let mut work = [0u8; 256];
    decrypt_over(key, data, &mut work);
    accept_authentication2(&work[..n], out)
}

// Seals an Authentication 2 payload, to which no header is added. The answer has the size and the padding.
pub fn encrypt_authentication2_payload(key: &[u8], payload: &[u8], out: &mut [u8]) -> Answer
    ensures { Meets (auth2_sealing key.now payload.now (length out.old)) result out.old out.new }
{
    let key = answer::exact::<8>(key)?;
    let n = payload.len();
    if AUTHENTICATION2_MAX < n {
        return Err(Refusal::TooLong);
    }
    let mut work = [0u8; 256];
    cipher::copy(payload, &mut work);
    let sealed = seal_front(AUTHENTICATION2_CODE, key, &mut work, n);
    answer::deliver(0, sealed.padding, &work[..sealed.size], out)
}

// What stands before a payload, in a command as in a response.
#[derive(Clone, Copy)]
pub(crate) struct SecureResponseHeader {
    pub(crate) transaction_number: u16,
    pub(crate) transaction_id: [u8; 6],
}

// A parsed response: its header, and the payload inside the plain text, without the MAC.
#[derive(Clone, Copy)]
pub(crate) struct SecureResponse<'a> {
    pub(crate) header: SecureResponseHeader,
    pub(crate) payload: &'a [u8],
}

// A plain text comes as the part of the work block that it fills, so its least length is asked of each function that reads from it. A type for a text
// of 16 bytes or more would be made in accept_des and taken apart at the next call: more lines than these clauses.
impl SecureResponseHeader {
    // The header that a plain text starts with.
    fn parse(plain: &[u8]) -> Self
        requires { 8 ≤ length plain.now }
        ensures { result ≡ header_of plain.now }
    {
        SecureResponseHeader {
            transaction_number: answer::transaction_number(plain),
            transaction_id: answer::fit(&plain[2..8]),
        }
    }

    // Writes number and ID over the front of out.
    fn write(self, out: &mut [u8])
        requires { 8 ≤ length out.old }
        ensures { out.new ≡ over (header self.transaction_number self.transaction_id) out.old }
    {
        out[..2].copy_from_slice(&self.transaction_number.to_le_bytes());
        out[2..8].copy_from_slice(&self.transaction_id);
    }
}

// The payload inside a plain text that ends with its MAC.
fn parse_payload(plain: &[u8]) -> &[u8]
    requires { 16 ≤ length plain.now }
    ensures { PayloadIn plain.entry result }
{
    strip_des_response_mac(&plain[8..])
}

// Whether two IDs are equal, compared as two numbers. Knowing the length, the compiler would turn `ct_eq` into one branch per byte, which leaks
// the position of the first difference.
fn same_id(x: [u8; 6], y: [u8; 6]) -> bool
    ensures { (result ≡ true → x ≡ y) × (x ≡ y → result ≡ true) }
{
    u64::from_le_bytes(answer::fit(&x)) == u64::from_le_bytes(answer::fit(&y))
}

// The payload goes out, if its ID is the one wanted.
fn deliver_checked(
    head: SecureResponseHeader,
    payload: &[u8],
    id: [u8; 6],
    out: &mut [u8],
) -> Answer
    ensures { Delivers (checked_delivering head.transaction_number head.transaction_id payload.now id (length out.old)) result out.old out.new }
{
    if !same_id(head.transaction_id, id) {
        return Err(Refusal::IdDiffers);
    }
    answer::deliver(head.transaction_number, 0, payload, out)
}

impl<'a> SecureResponse<'a> {
    // The response in a plain text that ends with its MAC, if that is the right one.
    pub(crate) fn parse(code: u8, plain: &'a [u8]) -> Result<Self, Refusal>
        requires { 16 ≤ length plain.now }
        ensures { ParsesOr13 code plain.entry result }
    {
        if !check_packet_mac_des(plain, code) {
            return Err(Refusal::MacDiffers);
        }
        Ok(SecureResponse {
            header: SecureResponseHeader::parse(plain),
            payload: parse_payload(plain),
        })
    }

    // Takes the response apart, and delivers it.
    pub(crate) fn deliver<'b>(self, id: [u8; 6], out: &'b mut [u8]) -> Answer
        ensures { Delivers (checked_delivering self.entry.header.transaction_number self.entry.header.transaction_id self.entry.payload.now id (length out.old)) result out.old out.new }
    {
        deliver_checked(self.header, self.payload, id, out)
    }
}

// Opens a plain text that ends with its MAC.
fn accept_des(code: u8, id: [u8; 6], plain: &[u8], out: &mut [u8]) -> Answer
    requires { 16 ≤ length plain.now }
    ensures { Delivers (des_accepting code id plain.now (length out.old)) result out.old out.new }
{
    SecureResponse::parse(code, plain)?.deliver(id, out)
}

// ID and key of an opening of n bytes, if no row by lengths refuses it: 17, 10, 11, 12.
fn check_open_des(id: &[u8], key: &[u8], n: usize) -> Result<([u8; 6], [u8; 8]), Refusal>
    ensures { ChecksOpenDes id.now key.now n result }
{
    let id = answer::exact::<6>(id)?;
    let key = answer::exact::<8>(key)?;
    if n % 8 != 0 {
        return Err(Refusal::NotWholeBlocks);
    }
    if n < 16 {
        return Err(Refusal::TooShort);
    }
    if SEALED_MAX < n {
        return Err(Refusal::TooLong);
    }
    Ok((id, key))
}

// Opens a sealed command or response. The trial plain text stands in a work block, so that a refusal shows none of it.
pub fn decrypt_secure_response_des(
    code: u8,
    id: &[u8],
    key: &[u8],
    data: &[u8],
    out: &mut [u8],
) -> Answer
    ensures { Meets (des_opening key.now code id.now «data».now (length out.old)) result out.old out.new }
{
    let n = data.len();
    let (id, key) = check_open_des(id, key, n)?;
    let mut work = [0u8; 256];
    decrypt_over(key, data, &mut work);
    accept_des(code, id, &work[..n], out)
}

// v if the last v bytes are all v, else 0. All v bytes are read before this is decided, so no jump tells where they differ.
fn padding_of(payload: &[u8], v: usize) -> usize
    requires range { (1 ≤ v) × (v ≤ 7) }
    requires there { v ≤ length payload.now }
    ensures { result ≡ choose (is_padding v payload.now) v 0 }
{
    let at = payload.len() - v;
    let mut diff = 0u8;
    for x in &payload[at..] {
        diff |= x ^ v as u8;
    }
    if diff == 0 { v } else { 0 }
}

// How many bytes of a payload are padding. Each count from 1 to 7 is tried, and at most one is found, since it equals the last byte: so 28 bytes
// are read whatever they are.
fn trim_count(payload: &[u8]) -> usize
    requires { length payload.now % 8 ≡ 0 }
    ensures { result ≡ trim_count payload.now }
{
    if payload.is_empty() {
        return 0;
    }
    let mut count = 0;
    for v in 1..8 {
        count += padding_of(payload, v);
    }
    count
}

// A payload of whole blocks without its padding.
fn trim_payload(payload: &[u8]) -> &[u8]
    requires { length payload.now % 8 ≡ 0 }
    ensures { result.now ≡ trim payload.now }
{
    let end = payload.len() - trim_count(payload);
    &payload[..end]
}

// Opens as decrypt_secure_response_des does, and trims the payload.
pub fn decrypt_secure_response_trimmed_des(
    code: u8,
    id: &[u8],
    key: &[u8],
    data: &[u8],
    out: &mut [u8],
) -> Answer
    ensures { Meets (trimmed_opening key.now code id.now «data».now (length out.old)) result out.old out.new }
{
    let mut work = [0u8; 256];
    let opened = decrypt_secure_response_des(code, id, key, data, &mut work)?;
    let n = usize::from(opened.length);
    let payload = trim_payload(&work[..n]);
    answer::deliver(opened.transaction_number, 0, payload, out)
}

// A payload without the MAC that follows it; by index, since split_last_chunk does not say where in memory its parts stand.
fn strip_des_response_mac(payload_with_mac: &[u8]) -> &[u8]
    requires { 8 ≤ length payload_with_mac.now }
    ensures { (result.now ≡ take (length payload_with_mac.now - 8) payload_with_mac.now) × (result.ref_ptr ≡ payload_with_mac.entry.ref_ptr) }
{
    let end = payload_with_mac.len() - 8;
    &payload_with_mac[..end]
}

// What a MAC starts as: of the total length the lowest byte, the code, and zeros.
fn mac_start(total: usize, code: u8) -> [u8; 8]
    ensures { result ≡ mac_start total code }
{
    let [lowest, ..] = total.to_le_bytes();
    [lowest, code, 0, 0, 0, 0, 0, 0]
}

// The MAC of a plain text of whole blocks.
pub(crate) fn calculate_command_mac_des(command_code: u8, plain: &[u8]) -> [u8; 8]
    ensures { result ≡ des_mac command_code plain.now }
{
    let start = mac_start(plain.len() + 10, command_code);
    cipher::encrypt_des_under_each(start, plain)
}

// Whether a plain text ends with its MAC. All eight bytes of the MAC's start are recovered and compared.
pub(crate) fn check_packet_mac_des(plain: &[u8], code: u8) -> bool
    ensures { result ≡ mac_holds code plain.now }
{
    let Some((text, mac)) = plain.split_last_chunk::<8>() else {
        return false;
    };
    let recovered = cipher::decrypt_des_under_each(*mac, text);
    let start = mac_start(plain.len() + 2, code);
    cipher::ct_eq(&recovered, &start)
}

// A padded text: how many bytes it has, and how many of them were added.
#[derive(Clone, Copy)]
struct Padded {
    end: usize,
    added: u8,
}

// Pads the first len bytes of out in place.
fn pad_to_des_block_size(out: &mut [u8], len: usize) -> Padded
    requires { len + pad_count len ≤ length out.old }
    ensures { (result.end ≡ len + pad_count len) × (result.added ≡ pad_count len) × (out.new ≡ over (pad (take len out.old)) out.old) }
{
    let end = len.next_multiple_of(8);
    let added = (end - len) as u8;
    out[len..end].fill(added);
    Padded { end, added }
}

// Seals the first len bytes of out in place: padding, MAC, encryption.
fn seal_front(code: u8, key: [u8; 8], out: &mut [u8], len: usize) -> Sealed
    requires { len + pad_count len + 8 ≤ length out.old }
    ensures front { (result.size ≡ len + pad_count len + 8) × (result.size ≡ length (des_seal key code (pad (take len out.old)))) × (out.new ≡ over (des_seal key code (pad (take len out.old))) out.old) }
    ensures padding { result.padding ≡ pad_count len }
{
    let padded = pad_to_des_block_size(out, len);
    let mac = calculate_command_mac_des(code, &out[..padded.end]);
    let size = padded.end + 8;
    out[padded.end..size].copy_from_slice(&mac);
    cipher::encrypt_des_cbc_zero_iv(&mut out[..size], key).unwrap();
    Sealed {
        size,
        padding: padded.added,
    }
}

// The size of a sealed payload of n bytes, if they are not too many.
pub(crate) fn size_des(n: usize) -> Result<usize, Refusal>
    ensures { HasSize 232 n (des_size n) result }
{
    if PAYLOAD_MAX < n {
        return Err(Refusal::TooLong);
    }
    Ok((n + 8).next_multiple_of(8) + 8)
}

// Tests the lengths of a sealing, 17 before 12, and then has its header and its key. A caller clears its work block after this, so that a refusal
// does not cost it.
fn check_des(
    number: u16,
    id: &[u8],
    key: &[u8],
    payload: &[u8],
) -> Result<(SecureResponseHeader, [u8; 8]), Refusal>
    ensures { ChecksDes number id.now key.now (length payload.now) result }
{
    let head = SecureResponseHeader {
        transaction_number: number,
        transaction_id: answer::exact::<6>(id)?,
    };
    let key = answer::exact::<8>(key)?;
    // 12; what is written has its own size
    size_des(payload.len())?;
    Ok((head, key))
}

// Writes a sealed payload over the front of out. All work is done in out.
fn write_des(
    code: u8,
    head: SecureResponseHeader,
    key: [u8; 8],
    payload: &[u8],
    out: &mut [u8],
) -> Sealed
    requires payload_len_bound { length payload.now ≤ 232 }
    requires payload_in_bounds { des_size (length payload.now) ≤ length out.old }
    ensures { WritesSealed (des_sealed key code head.transaction_number head.transaction_id payload.now) (des_size (length payload.now)) (pad_count (length payload.now + 8)) result out.old out.new }
{
    head.write(out);
    cipher::copy(payload, &mut out[8..]);
    seal_front(code, key, out, payload.len() + 8)
}

// Seals a command or a response with its transaction number and ID under the session key, in a work block. The answer has size and padding.
pub fn encrypt_secure_request_des(
    code: u8,
    number: u16,
    id: &[u8],
    key: &[u8],
    payload: &[u8],
    out: &mut [u8],
) -> Answer
    ensures { Meets (des_sealing key.now code number id.now payload.now (length out.old)) result out.old out.new }
{
    let (head, key) = check_des(number, id, key, payload)?;
    let mut work = [0u8; 256];
    let sealed = write_des(code, head, key, payload, &mut work);
    answer::deliver(0, sealed.padding, &work[..sealed.size], out)
}

// Makes a response frame under the session key, in a work block. The answer has its size, and the padding of what is sealed in it.
pub fn build_secure_response_frame_des(
    code: u8,
    number: u16,
    id: &[u8],
    key: &[u8],
    payload: &[u8],
    out: &mut [u8],
) -> Answer
    ensures { Meets (responding 1 key.now code number id.now payload.now (length out.old)) result out.old out.new }
{
    let (head, key) = check_des(number, id, key, payload)?;
    let mut work = [0u8; 256];
    let sealed = write_des(code, head, key, payload, &mut work[2..]);
    let end = command::frame_with_length_prefix(code, sealed.size, &mut work);
    answer::deliver(0, sealed.padding, &work[..end], out)
}
