// The table that a program prints: a row for each file, with how many cases ran, how many agreed, the first bytes of the file's CMAC under the
// zero key, so that no byte of a file changes unseen, and what the file's first line says. What is wrong has a line of its own.
ghost use Rattle.std.specs.Prelude.{◌≡◌, if◌then◌else◌, MatchResult};
ghost use Rattle.textfile.specs.Table.{counts_of, no_cases, sum_of};
ghost use Rattle.textfile.specs.declared.table.Verdict.TheVariants.{Agrees, Differs};

use crate::field::FieldError;
use std::ops::{Add, AddAssign};

// How many cases ran, how many agreed, and how many of these depart. The counts stop at 2^64 - 1.
#[derive(Clone, Copy, Debug, Default, PartialEq, Eq)]
pub struct Tally {
    pub ran: u64,
    pub agreed: u64,
    pub departed: u64,
}

impl Add for Tally {
    type Output = Tally;

    ghost add_gives = { λ a b c. c ≡ sum_of a b };

    fn add(self, other: Tally) -> Tally {
        Tally {
            ran: self.ran.saturating_add(other.ran),
            agreed: self.agreed.saturating_add(other.agreed),
            departed: self.departed.saturating_add(other.departed),
        }
    }
}

impl AddAssign for Tally {
    ghost add_assign_gives = { λ a b c. c ≡ sum_of a b };

    fn add_assign(&mut self, other: Tally) {
        *self = *self + other;
    }
}

// What came of a case. One departs that agrees with an answer which stands in place of its source's.
#[derive(Clone, Copy, Debug, PartialEq, Eq)]
pub enum Verdict {
    Agrees,
    Departs,
    Differs,
}

impl From<bool> for Verdict {
    ghost from_gives = { λ agrees v. v ≡ (if agrees then Agrees else Differs) };

    fn from(agrees: bool) -> Verdict {
        if agrees {
            Verdict::Agrees
        } else {
            Verdict::Differs
        }
    }
}

impl From<Verdict> for Tally {
    ghost from_gives = { λ v counts. counts ≡ counts_of v };

    fn from(verdict: Verdict) -> Tally {
        Tally {
            ran: 1,
            agreed: u64::from(verdict != Verdict::Differs),
            departed: u64::from(verdict == Verdict::Departs),
        }
    }
}

// What one case adds to the counts. A case that differs, is malformed or finds no memory is reported by its file and line.
pub fn counted(
    rt: &impl Print,
    verdict: Result<Verdict, FieldError>,
    file: &[u8],
    line: u64,
) -> Tally
    ensures { MatchResult verdict (λ v. result ≡ counts_of v) (λ _. result ≡ no_cases) }
{
    match verdict {
        Ok(verdict) => {
            if verdict == Verdict::Differs {
                report(rt, file, line, "differs");
            }
            Tally::from(verdict)
        }
        Err(error) => {
            report(rt, file, line, reason(error));
            Tally::default()
        }
    }
}

fn reason(error: FieldError) -> &'static str {
    match error {
        FieldError::Malformed => "is malformed",
        FieldError::NoMemory => "finds no memory",
    }
}

fn report(rt: &impl Print, file: &[u8], line: u64, what: &str) {
    put(rt, file);
    let _ = println!(rt; ", line {line}: {what}");
}

// Writes the bytes to the standard output. What cannot be written is not reported.
pub(crate) fn put(rt: &impl Print, bytes: &[u8]) {
    let _ = rt.write_all(bytes);
}

pub fn print_head(rt: &impl Print) {
    let _ = println!(rt; "   ran  agreed  file mac  set");
}

// A file's row. Its first line is a comment: what stands after the '#' and a blank.
pub fn print_row(rt: &impl Print, own: Tally, text: &[u8]) {
    let [a, b, c, d, ..] = cipher::aes128_cmac(text, [0; 16]);
    let _ = print!(rt;
        "{:>6}  {:>6}  {a:02x}{b:02x}{c:02x}{d:02x}  ",
        own.ran, own.agreed
    );
    put(rt, title(text));
    put(rt, b"\n");
}

// What the first line says. One that the text's end cuts short is empty.
fn title(text: &[u8]) -> &[u8] {
    let first = text.split_inclusive(|byte| *byte == b'\n').next();
    let line = first.and_then(|line| line.strip_suffix(b"\n"));
    line.and_then(|line| line.get(2..)).unwrap_or(&[])
}

pub fn print_sum(rt: &impl Print, all: Tally) {
    let _ = println!(rt; "{:>6}  {:>6}            all sets", all.ran, all.agreed);
}

// The row for those that depart, with what they are and the line's end.
pub fn print_departed(rt: &impl Print, all: Tally, what: &[u8]) {
    let _ = print!(rt; "        {:>6}            ", all.departed);
    put(rt, what);
}
