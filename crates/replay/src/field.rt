// The byte strings of a case. A longer one is malformed.
use textfile::{FieldError, Fields};

// An ID, a key, credentials or a block.
pub(crate) fn short(fields: &Fields, k: usize) -> Result<Vec<u8>, FieldError> {
    fields.bytes_within(k, 64)
}

// A text, a list, or the bytes of an answer.
pub(crate) fn long(fields: &Fields, k: usize) -> Result<Vec<u8>, FieldError> {
    fields.bytes_within(k, 4608)
}
