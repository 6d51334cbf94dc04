// One line of a data file: a case, read and put to its operation.
use crate::note::Checks;
use crate::{challenge, derive, sealed, steps};
use std::alloc::Global;
use textfile::{FieldError, Fields, Judge, Verdict};

// The lines of a file whose cases name an operation. The searches of a derivation's key list are checks of a run of their own.
#[derive(Drop)]
pub(crate) struct Cases {
    pub(crate) alloc: Global,
    pub(crate) operation: &'static str,
    pub(crate) searches: Checks,
}

impl Judge for Cases {
    fn judge(&mut self, line: &str) -> Result<Verdict, FieldError> {
        let departing = line.strip_suffix(" departs");
        let case = departing.unwrap_or(line);
        let agrees = agrees(self.alloc, self.operation, case, &mut self.searches)?;
        if agrees && departing.is_some() {
            Ok(Verdict::Departs)
        } else {
            Ok(Verdict::from(agrees))
        }
    }
}

// Whether all calls of a case agree. Its first field names its file's operation, and with that name a case has so many fields. One match says name,
// number and call of each: passed to the loop over a file's lines instead, they would stand at sixteen calls of that loop, which is no shorter, and
// the check takes a fifth longer.
fn agrees(
    alloc: Global,
    operation: &str,
    case: &str,
    searches: &mut Checks,
) -> Result<bool, FieldError> {
    let fields = Fields::new(alloc, case)?;
    if fields.get(0)? != operation {
        return Err(FieldError::Malformed);
    }
    match (operation, fields.texts.len()) {
        ("seal", 9) => sealed::seal(&fields),
        ("frame", 9) => sealed::frame(&fields),
        ("open", 9) => sealed::open(&fields),
        ("auth2seal", 5) => sealed::auth2_seal(&fields),
        ("auth2open_des", 5) => sealed::auth2_open_des(&fields),
        ("auth2open_aes", 7) => sealed::auth2_open_aes(&fields),
        ("package", 5) => sealed::package(&fields),
        ("derive", 10) => derive::keys(&fields, searches),
        ("keyfree", 3) => derive::key_free(&fields),
        ("make", 9) => challenge::make(&fields),
        ("read", 9) => challenge::read(&fields),
        ("check", 9) => challenge::check(&fields),
        ("session_keys", 6) => challenge::session_keys(&fields),
        ("step", 4) => steps::step(&fields),
        ("index", 5) => steps::index(&fields),
        ("apply", 9) => steps::apply(&fields),
        _ => Err(FieldError::Malformed),
    }
}
