// Challenges and AES session keys as C functions. Callers pass numbers and byte slices.
ghost use Rattle.std.specs.Prelude.{[], length};
ghost use Rattle.felica_secure.specs.Packed.{Returns};
ghost use Rattle.session.specs.Challenge.{making_1a, reading_1a, making_1b, checking_1b, making_2a, reading_2a, making_2b, checking_2b, deriving_session_keys};

use crate::pack;

// Makes 1A: the reader, from its random 1.
#[unsafe(no_mangle)]
pub extern "C" fn felica_encrypt_challenge1a(
    scheme: u8,
    keys: &[u8],
    idm: &[u8],
    random_1: &[u8],
    out: &mut [u8],
) -> u64
    ensures { Returns (making_1a scheme keys.now idm.now random_1.now (length out.old)) result out.old out.new }
{
    pack::pack(session::encrypt_challenge1a(scheme, keys, idm, random_1, out))
}

// Reads 1A: the card gets random 1.
#[unsafe(no_mangle)]
pub extern "C" fn felica_decrypt_challenge1a(
    scheme: u8,
    keys: &[u8],
    idm: &[u8],
    challenge_1a: &[u8],
    out: &mut [u8],
) -> u64
    ensures { Returns (reading_1a scheme keys.now idm.now challenge_1a.now (length out.old)) result out.old out.new }
{
    pack::pack(session::decrypt_challenge1a(scheme, keys, idm, challenge_1a, out))
}

// Makes 1B: the card, from the random 1 that it read.
#[unsafe(no_mangle)]
pub extern "C" fn felica_encrypt_challenge1b(
    scheme: u8,
    keys: &[u8],
    idm: &[u8],
    challenge_3c: &[u8],
    random_1: &[u8],
    out: &mut [u8],
) -> u64
    ensures { Returns (making_1b scheme keys.now idm.now challenge_3c.now random_1.now (length out.old)) result out.old out.new }
{
    pack::pack(session::encrypt_challenge1b(scheme, keys, idm, challenge_3c, random_1, out))
}

// Makes 2A: the card, from its random 2.
#[unsafe(no_mangle)]
pub extern "C" fn felica_encrypt_challenge2a(
    scheme: u8,
    keys: &[u8],
    idm: &[u8],
    challenge_3c: &[u8],
    random_2: &[u8],
    out: &mut [u8],
) -> u64
    ensures { Returns (making_2a scheme keys.now idm.now challenge_3c.now random_2.now (length out.old)) result out.old out.new }
{
    pack::pack(session::encrypt_challenge2a(scheme, keys, idm, challenge_3c, random_2, out))
}

// Reads 2A: the reader gets random 2.
#[unsafe(no_mangle)]
pub extern "C" fn felica_decrypt_challenge2a(
    scheme: u8,
    keys: &[u8],
    idm: &[u8],
    challenge_3c: &[u8],
    challenge_2a: &[u8],
    out: &mut [u8],
) -> u64
    ensures { Returns (reading_2a scheme keys.now idm.now challenge_3c.now challenge_2a.now (length out.old)) result out.old out.new }
{
    pack::pack(session::decrypt_challenge2a(scheme, keys, idm, challenge_3c, challenge_2a, out))
}

// Makes 2B: the reader, from the random 2 that it read.
#[unsafe(no_mangle)]
pub extern "C" fn felica_encrypt_challenge2b(
    scheme: u8,
    keys: &[u8],
    idm: &[u8],
    random_2: &[u8],
    out: &mut [u8],
) -> u64
    ensures { Returns (making_2b scheme keys.now idm.now random_2.now (length out.old)) result out.old out.new }
{
    pack::pack(session::encrypt_challenge2b(scheme, keys, idm, random_2, out))
}

// Checks 1B: the reader, against its random 1.
#[unsafe(no_mangle)]
pub extern "C" fn felica_verify_challenge1b(
    scheme: u8,
    keys: &[u8],
    idm: &[u8],
    challenge_3c: &[u8],
    random_1: &[u8],
    challenge_1b: &[u8],
) -> u64
    ensures { Returns (checking_1b scheme keys.now idm.now challenge_3c.now random_1.now challenge_1b.now) result [] [] }
{
    pack::pack_check(session::is_challenge1b(
        scheme,
        keys,
        idm,
        challenge_3c,
        random_1,
        challenge_1b,
    ))
}

// Checks 2B: the card, against its random 2.
#[unsafe(no_mangle)]
pub extern "C" fn felica_verify_challenge2b(
    scheme: u8,
    keys: &[u8],
    idm: &[u8],
    random_2: &[u8],
    challenge_2b: &[u8],
) -> u64
    ensures { Returns (checking_2b scheme keys.now idm.now random_2.now challenge_2b.now) result [] [] }
{
    pack::pack_check(session::is_challenge2b(scheme, keys, idm, random_2, challenge_2b))
}

// The AES session keys of random 2: cipher key, then MAC key.
#[unsafe(no_mangle)]
pub extern "C" fn felica_derive_secure_session_keys(random_2: &[u8], out: &mut [u8]) -> u64
    ensures { Returns (deriving_session_keys random_2.now (length out.old)) result out.old out.new }
{
    pack::pack(session::derive_secure_session_keys(random_2, out))
}
