//! Runs the program's top call on the rows of tables, and prints the tables with what each run writes and its status.
//!
//! The words of this program are the tables, files of `data/`. A row is the words of a run with what is asked of it (`Ask`), and then the
//! parts of its input (`input_of`), with ` | ` before each. A line that begins with `| ` goes on with the row above. Where the first word
//! is several with commas between them, there is a run with each. A line that begins with `#` says what the rows below it show.
#![tactic(auto)]

mod ask;
mod calls;
mod input;
mod rows;
mod shown;

use crate::rows::show_table;
use std::{env, fs, io};

// The folder of a file, in which the texts of its rows lie.
fn folder_of(path: &str) -> &str {
    match path.rsplit_once('/') {
        Some((folder, _)) => folder,
        None => ".",
    }
}

fn main(rt: HostRuntime) -> io::Result<()> {
    for path in env::args(&rt)?.skip(1) {
        let table = fs::read_to_string(&rt, &path)?;
        show_table(&rt, folder_of(&path), &table)?;
    }
    Ok(())
}
