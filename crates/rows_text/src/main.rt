//! Worked rows of classes, methods, call sites, links, what links rest on, and hosts, as text. The words of the program name files in the folder
//! that it runs in. For each file it prints each row that differs: the file, the line of the command, the command, the answer in the text
//! and the one that came. After these it prints how many rows there are and how many of them differ.
//!
//! docs/ROWS.md says what the lines and the commands are.
#![tactic(auto)]

mod call_sites;
mod classes;
mod definitions;
mod host;
mod links;
mod methods;
mod rows;
mod targets;
mod told;
mod words;

use crate::rows::Rows;
use std::{env, fs, io};

/// Prints what comes of the rows of a file of this name and text.
fn print_rows(rt: &(impl Print + AllocGlobal), file: &str, text: &str) -> io::Result<()> {
    let mut rows = Rows::new(rt.alloc(), file)?;
    match rows.read_all(rt, text) {
        Ok(()) => rows.print_counts(rt),
        fault => fault,
    }
}

/// Prints what comes of the rows of these files.
fn print_files(rt: &HostRuntime, files: &[String]) -> io::Result<()> {
    for file in files {
        let text = fs::read_to_string(rt, file.as_str())?;
        print_rows(rt, file.as_str(), text.as_str())?;
    }
    Ok(())
}

fn main(rt: HostRuntime) -> io::Result<()> {
    let words: Vec<String> = env::args(&rt)?.collect(rt.alloc())?;
    match words.split_first() {
        Some((_, files)) => print_files(&rt, files),
        None => Ok(()),
    }
}
