// The vectors of a set, each run through `cipher` in every direction that it has.
use std::alloc::Global;
use std::rt::Files;
use textfile::{FieldError, Fields, Judge, Tally, Verdict};

// A set of vectors.
pub(crate) trait Set {
    // Whether every direction gives every byte of a vector's four fields.
    fn agrees(&self, fields: &Fields) -> Result<bool, FieldError>;
}

// The lines of a set's files.
#[derive(Drop)]
struct Vectors<S> {
    alloc: Global,
    set: S,
}

impl<S: Set> Judge for Vectors<S> {
    fn judge(&mut self, line: &str) -> Result<Verdict, FieldError> {
        let fields = Fields::new(self.alloc, line)?;
        if fields.texts.len() != 4 {
            return Err(FieldError::Malformed);
        }
        Ok(Verdict::from(self.set.agrees(&fields)?))
    }
}

// Runs each vector of these files, and answers the counts.
pub(crate) fn run<R: Files + Print + AllocGlobal, S: Set + Drop>(
    rt: &R,
    files: &[&str],
    set: S,
) -> Tally {
    let mut vectors = Vectors {
        alloc: rt.alloc(),
        set,
    };
    let mut all = Tally::default();
    for file in files {
        all += textfile::run_file(rt, file, &mut vectors);
    }
    all
}

// Whether all bytes are equal. The library's own comparison has to say so too.
fn same(a: &[u8], b: &[u8]) -> bool {
    a == b && cipher::ct_eq(a, b)
}

// One block of AES-128: key, -, plaintext, ciphertext.
#[derive(Clone, Copy)]
pub(crate) struct Aes;

impl Set for Aes {
    fn agrees(&self, fields: &Fields) -> Result<bool, FieldError> {
        let key = fields.array(0)?;
        fields.array::<0>(1)?;
        let plain = fields.array(2)?;
        let sealed = fields.array(3)?;
        Ok(
            same(&cipher::encrypt_aes128_block(plain, key), &sealed)
                && same(&cipher::decrypt_aes128_block(sealed, key), &plain),
        )
    }
}

// One block of DES: key, -, plaintext, ciphertext. Triple DES under one key is DES, so these vectors are run through it too.
#[derive(Clone, Copy)]
pub(crate) struct Des;

impl Set for Des {
    fn agrees(&self, fields: &Fields) -> Result<bool, FieldError> {
        let key = fields.array(0)?;
        fields.array::<0>(1)?;
        let plain = fields.array(2)?;
        let sealed = fields.array(3)?;
        Ok(
            same(&cipher::encrypt_des_block(plain, key), &sealed)
                && same(&cipher::decrypt_des_block(sealed, key), &plain)
                && tdes_agrees(key, key, plain, sealed),
        )
    }
}

// One block of triple DES with the keys 1, 2, 1: key 1, key 2, plaintext, ciphertext.
#[derive(Clone, Copy)]
pub(crate) struct Tdes;

impl Set for Tdes {
    fn agrees(&self, fields: &Fields) -> Result<bool, FieldError> {
        let key1 = fields.array(0)?;
        let key2 = fields.array(1)?;
        let plain = fields.array(2)?;
        let sealed = fields.array(3)?;
        Ok(tdes_agrees(key1, key2, plain, sealed))
    }
}

fn tdes_agrees(key1: [u8; 8], key2: [u8; 8], plain: [u8; 8], sealed: [u8; 8]) -> bool {
    same(&cipher::encrypt_3des_block(plain, key1, key2), &sealed)
        && same(&cipher::decrypt_3des_block(sealed, key1, key2), &plain)
}

// The most bytes of a message.
const MESSAGE_MAX: usize = 256;

// The plaintext and the ciphertext of fields 2 and 3, which are equally long.
fn messages(fields: &Fields) -> Result<(Vec<u8>, Vec<u8>), FieldError> {
    let plain = fields.bytes_within(2, MESSAGE_MAX)?;
    let sealed = fields.bytes_within(3, MESSAGE_MAX)?;
    if plain.len() != sealed.len() {
        return Err(FieldError::Malformed);
    }
    Ok((plain, sealed))
}

// DES in CBC mode: key, iv, plaintext, ciphertext. The library's CBC starts from a zero iv, so the vector's goes into the first block before it, and
// likewise after it.
#[derive(Clone, Copy)]
pub(crate) struct Cbc;

impl Set for Cbc {
    fn agrees(&self, fields: &Fields) -> Result<bool, FieldError> {
        let key = fields.array(0)?;
        let iv = fields.array(1)?;
        let (plain, mut back) = messages(fields)?;
        let mut there = plain.clone()?;
        xor_front(&mut there, iv);
        let is_there = cipher::encrypt_des_cbc_zero_iv(&mut there, key).is_ok()
            && same(&there, &back);
        let is_back = cipher::decrypt_des_cbc_zero_iv(&mut back, key).is_ok();
        xor_front(&mut back, iv);
        Ok(is_there && is_back && same(&back, &plain))
    }
}

// Xors the iv into the first block of a text, if it has one.
fn xor_front(text: &mut [u8], iv: [u8; 8]) {
    for (byte, mask) in text.iter_mut().zip(iv.iter()) {
        *byte ^= *mask;
    }
}

// AES-128 in OFB mode: key, iv, plaintext, ciphertext.
#[derive(Clone, Copy)]
pub(crate) struct Ofb;

impl Set for Ofb {
    fn agrees(&self, fields: &Fields) -> Result<bool, FieldError> {
        let key = fields.array(0)?;
        let iv = fields.array(1)?;
        let (plain, mut back) = messages(fields)?;
        let mut there = plain.clone()?;
        cipher::apply_aes128_ofb(&mut there, key, iv);
        let is_there = same(&there, &back);
        cipher::apply_aes128_ofb(&mut back, key, iv);
        Ok(is_there && same(&back, &plain))
    }
}

// AES-128 CMAC: key, -, message, MAC.
#[derive(Clone, Copy)]
pub(crate) struct Cmac;

impl Set for Cmac {
    fn agrees(&self, fields: &Fields) -> Result<bool, FieldError> {
        let key = fields.array(0)?;
        fields.array::<0>(1)?;
        let message = fields.bytes_within(2, MESSAGE_MAX)?;
        let mac: [u8; 16] = fields.array(3)?;
        Ok(same(&cipher::aes128_cmac(&message, key), &mac))
    }
}
