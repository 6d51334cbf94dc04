// The session's steps: a case's inputs, the call, and the session after it.
use crate::call::{Given, Wanted};
use crate::field;
use answer::{Answer, Refusal, Scheme};
use session::AuthenticatedContext;
use textfile::{FieldError, Fields};

// A session of the DES scheme, its ID and key zeros.
fn made(number: u16, nodes: &[u8]) -> Result<AuthenticatedContext, Refusal> {
    AuthenticatedContext::new(Scheme::Des.mark(), number, &[0; 6], &[0; 8], nodes)
}

pub(crate) fn step(fields: &Fields) -> Result<bool, FieldError> {
    let wanted = Wanted::value(fields, fields.number(2)?, fields.number(3)?)?;
    let number = fields.number(1)?;
    Ok(wanted.is_given(|_| stepped(number)))
}

fn stepped(number: u16) -> Option<Given> {
    let mut context = made(number, &[]).ok()?;
    let answer = context.increment_transaction_number();
    told(answer, number, context)
}

// What a step answers, if the session is as it has to be after it: it has the number that the answer gives, and after a refusal the one it had; and
// it has counted a response that was turned away, and nothing else.
fn told(answer: Answer, before: u16, after: AuthenticatedContext) -> Option<Given> {
    let (number, count) = match answer {
        Ok(accepted) => (accepted.transaction_number, 0),
        Err(refusal) => (before, u16::from(turns_away(refusal))),
    };
    let is_right = after.transaction_number() == number && after.turned_away() == count;
    is_right.then_some(Given::from(answer))
}

// Whether a refusal is of what a response says, from its length to its number: 10 to 15.
fn turns_away(refusal: Refusal) -> bool {
    matches!(
        refusal,
        Refusal::NotWholeBlocks
            | Refusal::TooShort
            | Refusal::TooLong
            | Refusal::MacDiffers
            | Refusal::IdDiffers
            | Refusal::NumberNotAbove
    )
}

pub(crate) fn index(fields: &Fields) -> Result<bool, FieldError> {
    let wanted = Wanted::value(fields, fields.number(3)?, fields.number(4)?)?;
    let nodes = field::long(fields, 1)?;
    let node = fields.number(2)?;
    Ok(wanted.is_given(|_| {
        Some(match made(0, &nodes) {
            Ok(context) => Given::said(0, context.node_index(node)),
            Err(refusal) => Given::from(refusal),
        })
    }))
}

pub(crate) fn apply(fields: &Fields) -> Result<bool, FieldError> {
    let wanted = Wanted::opened(fields, 6, 7, 8)?;
    let number = fields.number(1)?;
    let code = fields.number(4)?;
    let id = field::short(fields, 2)?;
    let key = field::short(fields, 3)?;
    let sealed = field::long(fields, 5)?;
    Ok(wanted.is_given(|out| {
        let mut context = AuthenticatedContext::new(
            Scheme::Des.mark(),
            number,
            &id,
            &key,
            &[],
        ).ok()?;
        let answer = context.apply_response(code, &sealed, out);
        told(answer, number, context)
    }))
}
