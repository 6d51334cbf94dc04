// Puts the original's stored answers in data/ to the operations of `frame` and `session`, and prints a table.
//
// oracle/make_cases.py writes the files and what the table has to be. The first line of a file says what it has, a line that starts with '#' is a
// comment, and each other line is a case: the operation's name, its inputs and the answer, parted by single blanks, with byte strings in hex ('-'
// for the empty one) and numbers in decimal. A last word 'departs' says that the stored answer is not the original's. The table is that of crate
// `textfile`.
#![tactic(auto)]

mod call;
mod case;
mod challenge;
mod corners;
mod derive;
mod ends;
mod field;
mod note;
mod sealed;
mod steps;

use answer::Scheme;
use case::Cases;
use note::Checks;
use textfile::Tally;

// Each file, and the operation that its cases name.
static FILES: [(&str, &str); 24] = [
    ("seal", "seal_des.txt"),
    ("seal", "seal_aes.txt"),
    ("frame", "frame_des.txt"),
    ("frame", "frame_aes.txt"),
    ("open", "open_des_1.txt"),
    ("open", "open_des_2.txt"),
    ("open", "open_aes_1.txt"),
    ("open", "open_aes_2.txt"),
    ("auth2seal", "auth2seal.txt"),
    ("auth2open_des", "auth2open_des.txt"),
    ("auth2open_aes", "auth2open_aes.txt"),
    ("package", "package_1.txt"),
    ("package", "package_2.txt"),
    ("derive", "derive_1.txt"),
    ("derive", "derive_2.txt"),
    ("derive", "derive_3.txt"),
    ("keyfree", "keyfree.txt"),
    ("make", "make.txt"),
    ("read", "read.txt"),
    ("check", "check.txt"),
    ("session_keys", "session_keys.txt"),
    ("step", "step.txt"),
    ("index", "index.txt"),
    ("apply", "apply.txt"),
];

fn main(rt: HostRuntime) {
    textfile::print_head(&rt);
    let mut all = Tally::default();
    let mut cases = Cases {
        alloc: rt.alloc(),
        operation: "",
        searches: Checks::new(rt.alloc()),
    };
    for (operation, file) in &FILES {
        cases.operation = *operation;
        all += textfile::run_file(&rt, file, &mut cases);
    }
    all += cases.searches.print(&rt, "the searches", "# Searches of the stored key lists\n");
    all += own_runs(&rt);
    textfile::print_sum(&rt, all);
    textfile::print_departed(&rt, all, b"of them depart from the original\n");
}

// The runs that have no file.
fn own_runs<R: Print + AllocGlobal>(rt: &R) -> Tally {
    let mut many = Checks::new(rt.alloc());
    corners::many(&mut many);
    let mut steps = Checks::new(rt.alloc());
    corners::stepping(&mut steps);
    corners::responses::<24>(&mut steps, Scheme::Des);
    corners::responses::<18>(&mut steps, Scheme::Aes128);
    let mut under = Checks::new(rt.alloc());
    corners::ceilings(&mut under);
    corners::past::<24>(&mut under, Scheme::Des);
    corners::past::<18>(&mut under, Scheme::Aes128);
    let mut steady = Checks::new(rt.alloc());
    corners::all_steps(&mut steady);
    let mut ends = Checks::new(rt.alloc());
    ends::with_des(&mut ends, 1);
    ends::with_aes(&mut ends, 2);
    ends::with_des(&mut ends, 0);
    ends::with_aes(&mut ends, 0);
    let mut all = many.print(
        rt,
        "the session's corners",
        "# Session: 65,537 responses turned away\n",
    );
    all += steps.print(
        rt,
        "the session's corners",
        "# Session: number and response steps at their corners\n",
    );
    all += under.print(
        rt,
        "the session's corners",
        "# Session: number and response steps under a ceiling\n",
    );
    all += steady.print(
        rt,
        "the session's corners",
        "# Session: 65,535 number steps\n",
    );
    all += ends.print(
        rt,
        "both ends",
        "# Both ends through every call, by mark and scheme\n",
    );
    all
}
