// Challenges over slices, by scheme mark: 1 is DES, 2 is AES, every other is refused. `keys` are the derived keys: group and user key for
// DES, group and individual key for AES. Challenge 3C has 4 bytes under both marks, and is not looked at for DES.
// The parameters are those of C: numbers and byte slices. Each call is its own match, since the two contexts have blocks of their own length.
ghost use Rattle.std.specs.Prelude.{[], ◌∷◌, length};
ghost use Rattle.answer.specs.Outcome.{Meets, decide, row, accepted};
ghost use Rattle.answer.specs.Tests.{isnt};
ghost use Rattle.session.specs.Challenge.{making_1a, reading_1a, making_1b, checking_1b, making_2a, reading_2a, making_2b, checking_2b, Compares, deriving_session_keys};
ghost use Rattle.session.specs.inner.ChallengeSteps.{HasHalves, HasParsed};

use crate::des::AuthenticationContext;
use crate::v2_aes::{AuthenticationContextV2Aes128, SecureSessionKeys};
use answer::{Accepted, Answer, Refusal, Scheme};

// ---- what a call is given

// A context, and a block of its scheme: a random block, or a challenge that was received.
enum Parsed {
    Des(AuthenticationContext, [u8; 8]),
    Aes128(AuthenticationContextV2Aes128, [u8; 16]),
}

// Two keys of N bytes, one behind the other.
fn halves<const N: usize>(keys: &[u8]) -> Result<([u8; N], [u8; N]), Refusal>
    ensures { HasHalves N keys.now result }
{
    let (first, second) = keys.split_first_chunk().ok_or(Refusal::BadMarkOrLength)?;
    Ok((*first, answer::exact(second)?))
}

// A mark or a length that is wrong is BadMarkOrLength.
fn parse(scheme: u8, keys: &[u8], idm: &[u8], block: &[u8]) -> Result<Parsed, Refusal>
    ensures { HasParsed scheme keys.now idm.now block.now result }
{
    let scheme = Scheme::try_from(scheme)?;
    let idm = answer::exact(idm)?;
    match scheme {
        Scheme::Des => {
            let (group_key, user_key) = halves(keys)?;
            let block = answer::exact(block)?;
            let context = AuthenticationContext::new(idm, group_key, user_key);
            Ok(Parsed::Des(context, block))
        }
        Scheme::Aes128 => {
            let (group_key, individual_key) = halves(keys)?;
            let block = answer::exact(block)?;
            let context = AuthenticationContextV2Aes128::new(idm, group_key, individual_key);
            Ok(Parsed::Aes128(context, block))
        }
    }
}

// ---- 1A: the reader makes it from its random 1, the card reads it

pub fn encrypt_challenge1a(
    scheme: u8,
    keys: &[u8],
    idm: &[u8],
    random_1: &[u8],
    out: &mut [u8],
) -> Answer
    ensures { Meets (making_1a scheme keys.now idm.now random_1.now (length out.old)) result out.old out.new }
{
    match parse(scheme, keys, idm, random_1)? {
        Parsed::Des(context, random) => {
            answer::deliver(0, 0, &context.encrypt_challenge1a(random), out)
        }
        Parsed::Aes128(context, random) => {
            answer::deliver(0, 0, &context.encrypt_challenge1a(random), out)
        }
    }
}

pub fn decrypt_challenge1a(
    scheme: u8,
    keys: &[u8],
    idm: &[u8],
    challenge_1a: &[u8],
    out: &mut [u8],
) -> Answer
    ensures { Meets (reading_1a scheme keys.now idm.now challenge_1a.now (length out.old)) result out.old out.new }
{
    match parse(scheme, keys, idm, challenge_1a)? {
        Parsed::Des(context, challenge) => {
            answer::deliver(0, 0, &context.decrypt_challenge1a(challenge), out)
        }
        Parsed::Aes128(context, challenge) => {
            answer::deliver(0, 0, &context.decrypt_challenge1a(challenge), out)
        }
    }
}

// ---- 1B: the card makes it from the random 1 that it read, the reader checks it

pub fn encrypt_challenge1b(
    scheme: u8,
    keys: &[u8],
    idm: &[u8],
    challenge_3c: &[u8],
    random_1: &[u8],
    out: &mut [u8],
) -> Answer
    ensures { Meets (making_1b scheme keys.now idm.now challenge_3c.now random_1.now (length out.old)) result out.old out.new }
{
    let challenge_3c = answer::exact(challenge_3c)?;
    match parse(scheme, keys, idm, random_1)? {
        Parsed::Des(context, random) => {
            answer::deliver(0, 0, &context.encrypt_challenge1b(random), out)
        }
        Parsed::Aes128(context, random) => {
            answer::deliver(
                0,
                0,
                &context.encrypt_challenge1b(random, challenge_3c),
                out,
            )
        }
    }
}

// Whether challenge_1b is the 1B of random 1. For a caller that makes no jump of a difference.
pub fn is_challenge1b(
    scheme: u8,
    keys: &[u8],
    idm: &[u8],
    challenge_3c: &[u8],
    random_1: &[u8],
    challenge_1b: &[u8],
) -> Result<bool, Refusal>
    ensures { Compares (checking_1b scheme keys.now idm.now challenge_3c.now random_1.now challenge_1b.now) result }
{
    // told before a context is made, whose cipher would run for nothing
    if challenge_1b.len() != random_1.len() {
        return Err(Refusal::BadMarkOrLength);
    }
    let challenge_3c = answer::exact(challenge_3c)?;
    match parse(scheme, keys, idm, random_1)? {
        Parsed::Des(context, random) => {
            let challenge = answer::exact(challenge_1b)?;
            Ok(context.verify_challenge1b(random, challenge))
        }
        Parsed::Aes128(context, random) => {
            let challenge = answer::exact(challenge_1b)?;
            Ok(context.verify_challenge1b(random, challenge, challenge_3c))
        }
    }
}

pub fn verify_challenge1b(
    scheme: u8,
    keys: &[u8],
    idm: &[u8],
    challenge_3c: &[u8],
    random_1: &[u8],
    challenge_1b: &[u8],
) -> Answer
    ensures { Meets (checking_1b scheme keys.now idm.now challenge_3c.now random_1.now challenge_1b.now) result [] [] }
{
    accept(is_challenge1b(scheme, keys, idm, challenge_3c, random_1, challenge_1b)?)
}

// ---- 2A: the card makes it from its random 2, the reader reads it

pub fn encrypt_challenge2a(
    scheme: u8,
    keys: &[u8],
    idm: &[u8],
    challenge_3c: &[u8],
    random_2: &[u8],
    out: &mut [u8],
) -> Answer
    ensures { Meets (making_2a scheme keys.now idm.now challenge_3c.now random_2.now (length out.old)) result out.old out.new }
{
    encrypt_challenge1b(scheme, keys, idm, challenge_3c, random_2, out)
}

pub fn decrypt_challenge2a(
    scheme: u8,
    keys: &[u8],
    idm: &[u8],
    challenge_3c: &[u8],
    challenge_2a: &[u8],
    out: &mut [u8],
) -> Answer
    ensures { Meets (reading_2a scheme keys.now idm.now challenge_3c.now challenge_2a.now (length out.old)) result out.old out.new }
{
    let challenge_3c = answer::exact(challenge_3c)?;
    match parse(scheme, keys, idm, challenge_2a)? {
        Parsed::Des(context, challenge) => {
            answer::deliver(0, 0, &context.decrypt_challenge2a(challenge), out)
        }
        Parsed::Aes128(context, challenge) => {
            answer::deliver(
                0,
                0,
                &context.decrypt_challenge2a(challenge, challenge_3c),
                out,
            )
        }
    }
}

// ---- 2B: the reader makes it from the random 2 that it read, the card checks it

pub fn encrypt_challenge2b(
    scheme: u8,
    keys: &[u8],
    idm: &[u8],
    random_2: &[u8],
    out: &mut [u8],
) -> Answer
    ensures { Meets (making_2b scheme keys.now idm.now random_2.now (length out.old)) result out.old out.new }
{
    encrypt_challenge1a(scheme, keys, idm, random_2, out)
}

// Whether challenge_2b is the 2B of random 2. For a caller that makes no jump of a difference.
pub fn is_challenge2b(
    scheme: u8,
    keys: &[u8],
    idm: &[u8],
    random_2: &[u8],
    challenge_2b: &[u8],
) -> Result<bool, Refusal>
    ensures { Compares (checking_2b scheme keys.now idm.now random_2.now challenge_2b.now) result }
{
    // as in is_challenge1b
    if challenge_2b.len() != random_2.len() {
        return Err(Refusal::BadMarkOrLength);
    }
    match parse(scheme, keys, idm, random_2)? {
        Parsed::Des(context, random) => {
            let challenge = answer::exact(challenge_2b)?;
            Ok(context.verify_challenge2b(random, challenge))
        }
        Parsed::Aes128(context, random) => {
            let challenge = answer::exact(challenge_2b)?;
            Ok(context.verify_challenge2b(random, challenge))
        }
    }
}

pub fn verify_challenge2b(
    scheme: u8,
    keys: &[u8],
    idm: &[u8],
    random_2: &[u8],
    challenge_2b: &[u8],
) -> Answer
    ensures { Meets (checking_2b scheme keys.now idm.now random_2.now challenge_2b.now) result [] [] }
{
    accept(is_challenge2b(scheme, keys, idm, random_2, challenge_2b)?)
}

// MacDiffers, where a block is not the one wanted.
fn accept(equal: bool) -> Answer
    ensures { Meets (decide (row 13 (isnt equal) ∷ []) (accepted 0 [])) result [] [] }
{
    if equal {
        Ok(Accepted::sized(0))
    } else {
        Err(Refusal::MacDiffers)
    }
}

// ---- AES session keys, of random 2: cipher key, then MAC key

pub fn derive_secure_session_keys(random_2: &[u8], out: &mut [u8]) -> Answer
    ensures { Meets (deriving_session_keys random_2.now (length out.old)) result out.old out.new }
{
    let keys = SecureSessionKeys::derive(answer::exact(random_2)?);
    let both = [keys.encryption_key, keys.mac_key];
    answer::deliver(0, 0, both.as_flattened(), out)
}
