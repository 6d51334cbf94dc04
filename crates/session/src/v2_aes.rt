// AES challenges and session keys (v2_aes.rs, AuthenticationContextV2Aes128). The context goes by value, and gives its blocks by methods.
// Each method has the Rust's name, and one call of a cipher as its body, so no two are made one.
ghost use Rattle.std.specs.Prelude.{◌≡◌};
ghost use Rattle.cipher.specs.Bytes.{◌⊕◌};
ghost use Rattle.cipher.specs.Fips197.{aes_encrypt, aes_decrypt};
ghost use Rattle.answer.specs.Tests.{same};
ghost use Rattle.session.specs.Challenge.{context_block, with_3c, session_key_input};

const DERIVE_ENCRYPTION_KEY_INPUT: [u8; 16] =
    *b"\x01\x03\x00\x00\x00\x00\x00\x00\x00\x00\x00\x00\x00\x00\x01\x00";

const DERIVE_MAC_KEY_INPUT: [u8; 16] =
    *b"\x02\x03\x00\x00\x00\x00\x00\x00\x00\x00\x00\x00\x00\x00\x01\x00";

#[derive(Clone, Copy)]
pub struct AuthenticationContextV2Aes128 {
    alpha: [u8; 16],
    beta: [u8; 16],
}

#[derive(Clone, Copy)]
pub struct SecureSessionKeys {
    pub encryption_key: [u8; 16],
    pub mac_key: [u8; 16],
}

// The block that alpha (which is 1) or beta (2) encrypts.
fn build_authentication_context_block_v2_aes128(which: u8, idm: [u8; 8]) -> [u8; 16]
    ensures { result ≡ context_block which idm }
{
    let mut block = [which, 0x02, 0, 0, 0, 0, 0, 0, 0, 0, 0, 0, 0, 0, 0x01, 0x00];
    block[6..14].copy_from_slice(&idm);
    block
}

impl AuthenticationContextV2Aes128 {
    pub fn new(idm: [u8; 8], group_key: [u8; 16], individual_key: [u8; 16]) -> Self
        ensures { (result.alpha ≡ aes_encrypt (group_key ⊕ individual_key) (context_block 1 idm)) × (result.beta ≡ aes_encrypt (group_key ⊕ individual_key) (context_block 2 idm)) }
    {
        let h = cipher::xor_blocks(group_key, individual_key);
        let first = build_authentication_context_block_v2_aes128(0x01, idm);
        let second = build_authentication_context_block_v2_aes128(0x02, idm);
        let alpha = cipher::encrypt_aes128_block(first, h);
        let beta = cipher::encrypt_aes128_block(second, h);
        Self { alpha, beta }
    }

    // ---- 1A and 2B, under alpha

    pub fn encrypt_challenge1a(self, random_1: [u8; 16]) -> [u8; 16]
        ensures { result ≡ aes_encrypt self.alpha random_1 }
    {
        cipher::encrypt_aes128_block(random_1, self.alpha)
    }

    pub fn decrypt_challenge1a(self, challenge_1a: [u8; 16]) -> [u8; 16]
        ensures { result ≡ aes_decrypt self.alpha challenge_1a }
    {
        cipher::decrypt_aes128_block(challenge_1a, self.alpha)
    }

    pub fn encrypt_challenge2b(self, random_2: [u8; 16]) -> [u8; 16]
        ensures { result ≡ aes_encrypt self.alpha random_2 }
    {
        self.encrypt_challenge1a(random_2)
    }

    pub fn verify_challenge2b(self, random_2: [u8; 16], challenge_2b: [u8; 16]) -> bool
        ensures { result ≡ same challenge_2b (aes_encrypt self.alpha random_2) }
    {
        cipher::ct_eq(&challenge_2b, &self.encrypt_challenge2b(random_2))
    }

    // ---- 1B and 2A, under beta with Challenge 3C

    fn beta_with_challenge_3c(self, challenge_3c: [u8; 4]) -> [u8; 16]
        ensures { result ≡ with_3c self.beta challenge_3c }
    {
        cipher::xor_blocks(self.beta, answer::fit(&challenge_3c))
    }

    pub fn encrypt_challenge1b(self, random_1: [u8; 16], challenge_3c: [u8; 4]) -> [u8; 16]
        ensures { result ≡ aes_encrypt (with_3c self.beta challenge_3c) random_1 }
    {
        cipher::encrypt_aes128_block(random_1, self.beta_with_challenge_3c(challenge_3c))
    }

    pub fn verify_challenge1b(
        self,
        random_1: [u8; 16],
        challenge_1b: [u8; 16],
        challenge_3c: [u8; 4],
    ) -> bool
        ensures { result ≡ same challenge_1b (aes_encrypt (with_3c self.beta challenge_3c) random_1) }
    {
        cipher::ct_eq(
            &challenge_1b,
            &self.encrypt_challenge1b(random_1, challenge_3c),
        )
    }

    pub fn encrypt_challenge2a(self, random_2: [u8; 16], challenge_3c: [u8; 4]) -> [u8; 16]
        ensures { result ≡ aes_encrypt (with_3c self.beta challenge_3c) random_2 }
    {
        self.encrypt_challenge1b(random_2, challenge_3c)
    }

    pub fn decrypt_challenge2a(self, challenge_2a: [u8; 16], challenge_3c: [u8; 4]) -> [u8; 16]
        ensures { result ≡ aes_decrypt (with_3c self.beta challenge_3c) challenge_2a }
    {
        cipher::decrypt_aes128_block(challenge_2a, self.beta_with_challenge_3c(challenge_3c))
    }

    // ---- session keys, of random 2 alone

    pub fn derive_secure_session_keys(self, random_2: [u8; 16]) -> SecureSessionKeys
        ensures { (result.encryption_key ≡ aes_encrypt random_2 (session_key_input 1)) × (result.mac_key ≡ aes_encrypt random_2 (session_key_input 2)) }
    {
        SecureSessionKeys::derive(random_2)
    }
}

impl SecureSessionKeys {
    pub(crate) fn derive(random_2: [u8; 16]) -> Self
        ensures { (result.encryption_key ≡ aes_encrypt random_2 (session_key_input 1)) × (result.mac_key ≡ aes_encrypt random_2 (session_key_input 2)) }
    {
        Self {
            encryption_key: cipher::encrypt_aes128_block(DERIVE_ENCRYPTION_KEY_INPUT, random_2),
            mac_key: cipher::encrypt_aes128_block(DERIVE_MAC_KEY_INPUT, random_2),
        }
    }
}
