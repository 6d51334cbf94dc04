// Data files of cases, one to a line: how a program reads a file and its fields, runs each case, and the table that it prints.
#![tactic(auto)]

mod field;
mod file;
mod table;

pub use field::{FieldError, Fields};
pub use file::{Judge, load, run_file};
pub use table::{Tally, Verdict, counted, print_departed, print_head, print_row, print_sum};
