// DES challenges (des.rs, from AuthenticationContext on). The context goes by value, and gives its blocks by methods.
// Each method has the Rust's name, and one call of a cipher as its body, so no two are made one.
ghost use Rattle.std.specs.Prelude.{◌≡◌};
ghost use Rattle.cipher.specs.Bytes.{◌⊕◌};
ghost use Rattle.cipher.specs.Fips46.{des_encrypt, tdea2_encrypt, tdea2_decrypt};
ghost use Rattle.answer.specs.Tests.{same};

#[derive(Clone, Copy)]
pub struct AuthenticationContext {
    l: [u8; 8],
    alpha: [u8; 8],
    beta: [u8; 8],
}

impl AuthenticationContext {
    pub fn new(idm: [u8; 8], group_service_key: [u8; 8], user_service_key: [u8; 8]) -> Self
        ensures { (result.l ≡ group_service_key ⊕ idm) × (result.alpha ≡ des_encrypt result.l user_service_key) × (result.beta ≡ des_encrypt result.alpha result.l) }
    {
        let l = cipher::xor_blocks(group_service_key, idm);
        let alpha = cipher::encrypt_des_block(user_service_key, l);
        let beta = cipher::encrypt_des_block(l, alpha);
        Self { l, alpha, beta }
    }

    // ---- 1A and 2B, under alpha and L

    pub fn encrypt_challenge1a(self, random_1: [u8; 8]) -> [u8; 8]
        ensures { result ≡ tdea2_encrypt self.alpha self.l random_1 }
    {
        cipher::encrypt_3des_block(random_1, self.alpha, self.l)
    }

    pub fn decrypt_challenge1a(self, challenge_1a: [u8; 8]) -> [u8; 8]
        ensures { result ≡ tdea2_decrypt self.alpha self.l challenge_1a }
    {
        cipher::decrypt_3des_block(challenge_1a, self.alpha, self.l)
    }

    pub fn encrypt_challenge2b(self, random_2: [u8; 8]) -> [u8; 8]
        ensures { result ≡ tdea2_encrypt self.alpha self.l random_2 }
    {
        self.encrypt_challenge1a(random_2)
    }

    pub fn verify_challenge2b(self, random_2: [u8; 8], challenge_2b: [u8; 8]) -> bool
        ensures { result ≡ same challenge_2b (tdea2_encrypt self.alpha self.l random_2) }
    {
        cipher::ct_eq(&challenge_2b, &self.encrypt_challenge2b(random_2))
    }

    // ---- 1B and 2A, under L and beta

    pub fn encrypt_challenge1b(self, random_1: [u8; 8]) -> [u8; 8]
        ensures { result ≡ tdea2_encrypt self.l self.beta random_1 }
    {
        cipher::encrypt_3des_block(random_1, self.l, self.beta)
    }

    pub fn verify_challenge1b(self, random_1: [u8; 8], challenge_1b: [u8; 8]) -> bool
        ensures { result ≡ same challenge_1b (tdea2_encrypt self.l self.beta random_1) }
    {
        cipher::ct_eq(&challenge_1b, &self.encrypt_challenge1b(random_1))
    }

    pub fn encrypt_challenge2a(self, random_2: [u8; 8]) -> [u8; 8]
        ensures { result ≡ tdea2_encrypt self.l self.beta random_2 }
    {
        self.encrypt_challenge1b(random_2)
    }

    pub fn decrypt_challenge2a(self, challenge_2a: [u8; 8]) -> [u8; 8]
        ensures { result ≡ tdea2_decrypt self.l self.beta challenge_2a }
    {
        cipher::decrypt_3des_block(challenge_2a, self.l, self.beta)
    }
}
