// What sealing in a work block answers.

// How many bytes the sealed data has, and how many of padding were added to what was sealed.
#[derive(Clone, Copy)]
pub(crate) struct Sealed {
    pub(crate) size: usize,
    pub(crate) padding: u8,
}
