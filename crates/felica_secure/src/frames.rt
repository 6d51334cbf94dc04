// Sealed data as C functions: commands, responses, Authentication 2, the size forecast, registration packages. Callers pass numbers and byte
// slices.
ghost use Rattle.std.specs.Prelude.{◌≡◌, length};
ghost use Rattle.felica_secure.specs.Packed.{packed, Returns};
ghost use Rattle.frame.specs.Authentication2.{auth2_sealing, auth2_opening, auth2_opening_aes};
ghost use Rattle.frame.specs.Forecast.{forecasting};
ghost use Rattle.frame.specs.Package.{packaging};
ghost use Rattle.frame.specs.Scheme.{sealing, opening, responding};
ghost use Rattle.frame.specs.Trimmed.{trimmed_opening};

use crate::pack;

// Seals a command. The answer has the padding.
#[unsafe(no_mangle)]
pub extern "C" fn felica_encrypt_command(
    scheme: u8,
    code: u8,
    number: u16,
    id: &[u8],
    credentials: &[u8],
    payload: &[u8],
    out: &mut [u8],
) -> u64
    ensures { Returns (sealing scheme credentials.now code number id.now payload.now (length out.old)) result out.old out.new }
{
    pack::pack(frame::encrypt_command(scheme, code, number, id, credentials, payload, out))
}

// Opens a sealed command or response: in a response frame, what follows the length byte and the code.
#[unsafe(no_mangle)]
pub extern "C" fn felica_decrypt_response(
    scheme: u8,
    code: u8,
    id: &[u8],
    credentials: &[u8],
    data: &[u8],
    out: &mut [u8],
) -> u64
    ensures { Returns (opening scheme credentials.now code id.now «data».now (length out.old)) result out.old out.new }
{
    pack::pack(frame::decrypt_response(scheme, code, id, credentials, data, out))
}

// Makes a response frame. The answer has the padding.
#[unsafe(no_mangle)]
pub extern "C" fn felica_build_secure_response_frame(
    scheme: u8,
    code: u8,
    number: u16,
    id: &[u8],
    credentials: &[u8],
    payload: &[u8],
    out: &mut [u8],
) -> u64
    ensures { Returns (responding scheme credentials.now code number id.now payload.now (length out.old)) result out.old out.new }
{
    pack::pack(frame::build_secure_response_frame(
        scheme,
        code,
        number,
        id,
        credentials,
        payload,
        out,
    ))
}

// The size of a sealed payload: what felica_encrypt_command writes.
#[unsafe(no_mangle)]
pub extern "C" fn felica_forecast(scheme: u8, payload_len: usize) -> u64
    ensures { result ≡ packed (forecasting scheme payload_len).number 0 (forecasting scheme payload_len).size 0 }
{
    pack::pack(frame::forecast(scheme, payload_len))
}

// Opens DES data and drops its padding: the last v bytes, if they all equal v and v is 1 to 7.
#[unsafe(no_mangle)]
pub extern "C" fn felica_decrypt_response_trimmed_des(
    code: u8,
    id: &[u8],
    key: &[u8],
    data: &[u8],
    out: &mut [u8],
) -> u64
    ensures { Returns (trimmed_opening key.now code id.now «data».now (length out.old)) result out.old out.new }
{
    pack::pack(frame::decrypt_secure_response_trimmed_des(code, id, key, data, out))
}

// Seals a DES Authentication 2 payload. The answer has the padding.
#[unsafe(no_mangle)]
pub extern "C" fn felica_encrypt_authentication2_payload_des(
    key: &[u8],
    payload: &[u8],
    out: &mut [u8],
) -> u64
    ensures { Returns (auth2_sealing key.now payload.now (length out.old)) result out.old out.new }
{
    pack::pack(frame::encrypt_authentication2_payload(key, payload, out))
}

// Opens a DES Authentication 2 response: all but the MAC.
#[unsafe(no_mangle)]
pub extern "C" fn felica_decrypt_authentication2_payload_des(
    key: &[u8],
    data: &[u8],
    out: &mut [u8],
) -> u64
    ensures { Returns (auth2_opening key.now «data».now (length out.old)) result out.old out.new }
{
    pack::pack(frame::decrypt_authentication2_payload(key, data, out))
}

// Opens an AES Authentication 2 response.
#[unsafe(no_mangle)]
pub extern "C" fn felica_decrypt_authentication2_payload_v2_aes128(
    id: &[u8],
    credentials: &[u8],
    data: &[u8],
    out: &mut [u8],
) -> u64
    ensures { Returns (auth2_opening_aes credentials.now id.now «data».now (length out.old)) result out.old out.new }
{
    pack::pack(frame::decrypt_authentication2_payload_v2_aes128(id, credentials, data, out))
}

// Makes a DES registration package.
#[unsafe(no_mangle)]
pub extern "C" fn felica_generate_registration_package_des(
    key: &[u8],
    plain: &[u8],
    out: &mut [u8],
) -> u64
    ensures { Returns (packaging key.now plain.now (length out.old)) result out.old out.new }
{
    pack::pack(frame::generate_registration_package_des(key, plain, out))
}
