// Sealed frames of the FeliCa secure session, in both schemes: the sealing and opening of commands and responses, response frames,
// Authentication 2, the size forecast; registration packages for DES. No public function asks anything of its caller; a refusal has a
// number and writes nothing.
#![tactic(auto)]

mod command;
mod des;
mod package;
mod sealed;
mod secure;
mod v2_aes;

pub use des::{
    build_secure_response_frame_des, decrypt_authentication2_payload, decrypt_secure_response_des,
    decrypt_secure_response_trimmed_des, encrypt_authentication2_payload,
    encrypt_secure_request_des,
};
pub use package::generate_registration_package_des;
pub use secure::{
    AES128, DES, build_secure_response_frame, decrypt_response, encrypt_command, forecast,
};
pub use v2_aes::{
    build_secure_response_frame_v2_aes128, decrypt_authentication2_payload_v2_aes128,
    decrypt_secure_response_v2_aes128, encrypt_secure_request_v2_aes128,
};
