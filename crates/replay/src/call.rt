// The stored answer of a case, and whether a call gives it.
ghost use Rattle.std.specs.Prelude.{◌≤◌, length};

use crate::field;
use answer::{Answer, Refusal};
use textfile::{FieldError, Fields};

// An answer, of a call or stored: its number, how many bytes it has, the scheme mark, the one other value (transaction number, node, index, or 1
// for yes), and the padding. What the operation does not have is 0. The files have numbers, so answers are compared as numbers.
#[derive(Clone, Copy, PartialEq, Eq)]
pub(crate) struct Given {
    pub(crate) number: u8,
    pub(crate) length: u16,
    pub(crate) scheme: u8,
    pub(crate) value: u16,
    pub(crate) padding: u8,
}

// What stands for None, where a case has no call or its session cannot be made: a number that no operation answers.
const NO_ANSWER: Given = Given {
    number: 255,
    length: 0,
    scheme: 0,
    value: 0,
    padding: 0,
};

impl From<Answer> for Given {
    fn from(answer: Answer) -> Given {
        match answer {
            Ok(accepted) => Given {
                number: 0,
                length: accepted.length,
                scheme: 0,
                value: accepted.transaction_number,
                padding: accepted.padding,
            },
            Err(refusal) => Given::from(refusal),
        }
    }
}

impl From<Refusal> for Given {
    fn from(refusal: Refusal) -> Given {
        Given::said(refusal.number(), refusal.node().unwrap_or(0))
    }
}

impl Given {
    // An answer without bytes.
    pub(crate) fn said(number: u8, value: u16) -> Given {
        Given {
            number,
            length: 0,
            scheme: 0,
            value,
            padding: 0,
        }
    }
}

// What a call gives whose answer says all.
pub(crate) fn answered(answer: Answer) -> Option<Given> {
    Some(Given::from(answer))
}

// What a call of a case has to give: an answer, and bytes.
#[derive(Drop)]
pub(crate) struct Wanted {
    pub(crate) answer: Given,
    bytes: Vec<u8>,
}

impl Wanted {
    // An answer that has bytes, or a refusal: the fields where its number and its bytes are.
    pub(crate) fn bytes(
        fields: &Fields,
        number: usize,
        bytes: usize,
    ) -> Result<Wanted, FieldError> {
        Wanted::new(fields.number(number)?, 0, 0, field::long(fields, bytes)?)
    }

    // An answer that has a value too: the fields where its number, its value and its bytes are.
    pub(crate) fn opened(
        fields: &Fields,
        number: usize,
        value: usize,
        bytes: usize,
    ) -> Result<Wanted, FieldError> {
        Wanted::new(
            fields.number(number)?,
            fields.number(value)?,
            0,
            field::long(fields, bytes)?,
        )
    }

    // With the padding of a sealing. The original tells none, so the files have none; a refusal has none either.
    pub(crate) fn padded(self, padding: u8) -> Wanted {
        let Wanted { answer, bytes } = self;
        let padding = if answer.number == 0 { padding } else { 0 };
        Wanted {
            answer: Given { padding, ..answer },
            bytes,
        }
    }

    // An answer with a value and no bytes.
    pub(crate) fn value(fields: &Fields, number: u8, value: u16) -> Result<Wanted, FieldError> {
        Wanted::new(number, value, 0, Vec::new(*fields.texts.allocator()))
    }

    // What is stored in a case. It is malformed if no answer can be so: a refusal is its number only, and the node with 4, "a key is missing".
    pub(crate) fn new(
        number: u8,
        value: u16,
        scheme: u8,
        bytes: Vec<u8>,
    ) -> Result<Wanted, FieldError> {
        let length = u16::try_from(bytes.len()).map_err(|_| FieldError::Malformed)?;
        let answer = Given {
            number,
            length,
            scheme,
            value,
            padding: 0,
        };
        let is_answer = match number {
            0 => true,
            4 => answer == Given::said(4, value),
            _ => answer == Given::said(number, 0),
        };
        if is_answer {
            Ok(Wanted { answer, bytes })
        } else {
            Err(FieldError::Malformed)
        }
    }

    // Whether a call gives this: with an output of the answer's size, of one byte more, of 4,608 bytes, and of one
    // byte less, which is answered with "the output is too small". A call without an output is asked anew.
    pub(crate) fn is_given<F: Fn(&mut [u8]) -> Option<Given>>(&self, call: F) -> bool
        requires { F.IsAlwaysCallable call }
    {
        let bytes = self.bytes.as_slice();
        let n = bytes.len();
        n < 4608
            && in_room(&call, n, self.answer, bytes)
            && in_room(&call, n + 1, self.answer, bytes)
            && in_room(&call, 4608, self.answer, bytes)
            && (n == 0 || in_room(&call, n - 1, Given::from(Refusal::OutputTooSmall), &[]))
    }
}

// Whether a call with an output of `room` bytes gives this answer. The output lies within a page of bytes 0xA5, and the whole page has to be as it
// was, but for the answer's bytes. Both pages have a fixed size, since what is tested is room.
fn in_room<F: Fn(&mut [u8]) -> Option<Given>>(
    call: &F,
    room: usize,
    answer: Given,
    bytes: &[u8],
) -> bool
    requires may { F.IsAlwaysCallable call.now }
    requires fits { room ≤ 4608 }
    requires bytes_fit { length bytes.now ≤ 4608 }
{
    let mut page = [0xA5u8; 4640];
    let mut right = [0xA5u8; 4640];
    right[16..16 + bytes.len()].copy_from_slice(bytes);
    let given = call(&mut page[16..16 + room]).unwrap_or(NO_ANSWER);
    given == answer && page == right
}
