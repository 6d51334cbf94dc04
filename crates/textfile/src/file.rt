// A data file: its bytes, and each of its lines.
ghost use Rattle.std.specs.Prelude.{◌≡◌, ◌≤◌, length, take};
ghost use Rattle.textfile.specs.Table.{AreCounts};

use crate::field::FieldError;
use crate::table::{self, Tally, Verdict};
use std::alloc::Global;
use std::fs;
use std::io::Read;
use std::rt::Files;

// No file has as many bytes.
const TOO_LONG: usize = 65536;

// What a program makes of the lines that are cases.
pub trait Judge {
    fn judge(&mut self, line: &str) -> Result<Verdict, FieldError>;
}

// Runs each case of a file, prints the file's row, and answers its counts. A file that cannot be opened or is too long is reported, and has no
// cases; where reading it fails, it ends there.
pub fn run_file<R: Files + Print + AllocGlobal, J: Judge>(
    rt: &R,
    file: &str,
    judge: &mut J,
) -> Tally
    ensures { AreCounts result }
{
    let mut buffer = [0u8; TOO_LONG];
    let n = load(rt, file.as_bytes(), &mut buffer);
    let own = run_text(rt, file, &buffer[..n], judge);
    table::print_row(rt, own, &buffer[..n]);
    own
}

// Reads a file, and answers how many bytes it has: 0 where it cannot be opened or fills the buffer, which is reported.
pub fn load(rt: &(impl Files + Print), file: &[u8], buffer: &mut [u8]) -> usize
    ensures in_bounds { result ≤ length buffer.new }
    ensures has_that_many { result ≡ length (take result buffer.new) }
{
    let Some(mut opened) = open(rt, file) else {
        table::put(rt, file);
        table::put(rt, b": cannot be opened\n");
        return 0;
    };
    let n = read_full(&mut opened, buffer);
    if n == buffer.len() {
        table::put(rt, file);
        table::put(rt, b": is too long\n");
        return 0;
    }
    n
}

// A file's name is UTF-8: no other opens a file.
fn open<R: Files>(rt: &R, file: &[u8]) -> Option<R::File> {
    let name = str::from_utf8(file).ok()?;
    fs::open(rt, name).ok()
}

// Reads until the buffer is full, the file ends or a read fails, and answers how many bytes it put at the buffer's start.
fn read_full(file: &mut impl Read, buffer: &mut [u8]) -> usize
    ensures in_bounds { result ≤ length buffer.new }
    ensures has_that_many { result ≡ length (take result buffer.new) }
{
    let mut done = 0;
    while done < buffer.len() {
        match file.read(&mut buffer[done..]) {
            Ok(n) if n > 0 => done += n,
            _ => break,
        }
    }
    done
}

// The counts of a text's cases. Where bytes are no text, all that are not ASCII are read as '?', which no field has.
fn run_text<R: Print + AllocGlobal, J: Judge>(
    rt: &R,
    file: &str,
    text: &[u8],
    judge: &mut J,
) -> Tally
    ensures { AreCounts result }
{
    if let Ok(text) = str::from_utf8(text) {
        return run_lines(rt, file, text, judge);
    }
    match in_ascii(rt.alloc(), text) {
        Some(text) => run_lines(rt, file, text.as_str(), judge),
        None => {
            let _ = println!(rt; "{file}: finds no memory");
            Tally::default()
        }
    }
}

fn in_ascii(alloc: Global, text: &[u8]) -> Option<String> {
    let mut bytes = text.to_vec(alloc).ok()?;
    for byte in bytes.iter_mut() {
        if !byte.is_ascii() {
            *byte = b'?';
        }
    }
    String::from_utf8(bytes).ok()
}

// The same of text. A line that starts with '#' is no case, and one that the text's end cuts short is empty.
fn run_lines<J: Judge>(rt: &impl Print, file: &str, text: &str, judge: &mut J) -> Tally
    ensures { AreCounts result }
{
    let mut own = Tally::default();
    for (number, line) in (1u64..).zip(text.split_inclusive('\n')) {
        let line = line.strip_suffix('\n').unwrap_or("");
        if !line.starts_with('#') {
            own += table::counted(rt, judge.judge(line), file.as_bytes(), number);
        }
    }
    own
}

#[cfg(test)]
mod tests {
    use super::*;
    use std::test::Fail;

    #[derive(Drop)]
    struct Ends;

    impl Judge for Ends {
        fn judge(&mut self, line: &str) -> Result<Verdict, FieldError> {
            if line.is_empty() {
                return Err(FieldError::Malformed);
            }
            Ok(Verdict::from(line.ends_with('1')))
        }
    }

    // A text, and one with bytes that are none; the last line is cut short.
    #[test]
    fn counts_lines(rt: HostRuntime) -> Result<(), Fail> {
        let wanted = Tally {
            ran: 3,
            agreed: 2,
            departed: 0,
        };
        assert_eq!(rt;
            run_text(&rt, "a text", b"# title\n1\n21\n2\n3", &mut Ends),
            wanted
        );
        assert_eq!(rt;
            run_text(&rt, "no text", b"# \xff\n1\n\xff1\n\xff\n\xff1", &mut Ends),
            wanted
        );
        Ok(())
    }
}
