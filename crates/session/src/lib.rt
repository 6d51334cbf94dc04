// The FeliCa secure session: service codes, key derivation, the search of a key list, challenges of the authentication, and the session after it. No
// public function asks anything of its caller; a refusal has a number and writes nothing.
#![tactic(auto)]

mod challenge;
mod context;
mod des;
mod keys;
mod types;
mod v2_aes;

pub use challenge::{
    decrypt_challenge1a, decrypt_challenge2a, derive_secure_session_keys, encrypt_challenge1a,
    encrypt_challenge1b, encrypt_challenge2a, encrypt_challenge2b, is_challenge1b, is_challenge2b,
    verify_challenge1b, verify_challenge2b,
};
pub use context::{AuthenticatedContext, CEILING_NONE};
pub use des::AuthenticationContext;
pub use keys::{DerivedAuthKeys, Found, derive_auth_keys, search_key};
pub use types::is_key_free_service;
pub use v2_aes::{AuthenticationContextV2Aes128, SecureSessionKeys};
