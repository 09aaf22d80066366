//! The rows of a file, one after another.

use crate::host::{self, Host};
use crate::links::answer;
use crate::told::Told;
use crate::words::number;
use jl_relink::World;
use std::alloc::{AllocError, Global};
use std::io;

/// What has come of the lines so far: the world or the host of this table, the row that is being read, how many rows there were, and how many
/// of them differ. The row is the number of its first line, the words of its command and those of its answer.
pub(crate) struct Rows<'a> {
    file: &'a str,
    world: World,
    host: Host,
    is_host: bool,
    line: usize,
    command: Vec<&'a str>,
    want: Vec<&'a str>,
    has_answer: bool,
    rows: u32,
    differ: u32,
}

/// Written out, so that what drops one makes one call of it and doesn't take apart what it holds.
impl<'a> Drop for Rows<'a> {
    fn drop(self) {
        let Rows {
            file: _file,
            world: _world,
            host: _host,
            is_host: _is_host,
            line: _line,
            command: _command,
            want: _want,
            has_answer: _has_answer,
            rows: _rows,
            differ: _differ,
        } = self;
    }
}

/// Tells what the command is answered: the last answer if it is repeated.
fn answered(told: &mut Told, world: &mut World, command: &[&str]) {
    match *command {
        ["repeat", count, ref command @ ..] => {
            let count = number(told, count);
            told.put("None");
            for _ in 0..count {
                told.clear();
                answer(told, world, command);
            }
        }
        _ => answer(told, world, command),
    }
}

/// Adds the words of the text.
fn add_words<'a>(words: &mut Vec<&'a str>, text: &'a str) -> Result<(), AllocError> {
    for word in text.split_whitespace() {
        words.push(word)?;
    }
    Ok(())
}

impl<'a> Rows<'a> {
    /// No line was read of this file.
    pub(crate) fn new(alloc: Global, file: &'a str) -> Result<Self, AllocError> {
        Ok(Rows {
            file,
            world: World::new(alloc)?,
            host: Host::new(alloc),
            is_host: false,
            line: 0,
            command: Vec::new(alloc),
            want: Vec::new(alloc),
            has_answer: false,
            rows: 0,
            differ: 0,
        })
    }

    /// Prints the row, which differs.
    fn print_row(&self, rt: &(impl Print + AllocGlobal), want: &str, came: &str) -> io::Result<()> {
        let mut command = Told::new(rt.alloc());
        command.words(&self.command);
        let command = command.answer()?;
        println!(rt;
            "{}:{}: {command}: {want} in the text, {came} came",
            self.file, self.line
        )
    }

    /// Tells of the row if the text has another answer than came, or none.
    fn compare(&mut self, rt: &(impl Print + AllocGlobal), came: &str) -> io::Result<()> {
        let mut want = Told::new(rt.alloc());
        want.words(&self.want);
        let want = want.answer()?;
        if self.has_answer && came == want {
            return Ok(());
        }
        self.differ = self.differ.saturating_add(1);
        self.print_row(rt, want, came)
    }

    /// Answers the command of the row that was read, and tells of it if it differs.
    fn judge(&mut self, rt: &(impl Print + AllocGlobal)) -> io::Result<()> {
        self.rows = self.rows.saturating_add(1);
        let mut told = Told::new(rt.alloc());
        if self.is_host {
            host::answer(&mut told, &mut self.host, &self.command);
        } else {
            answered(&mut told, &mut self.world, &self.command);
        }
        self.compare(rt, told.answer()?)
    }

    /// Ends the row that was read, if there is one.
    fn end_row(&mut self, rt: &(impl Print + AllocGlobal)) -> io::Result<()> {
        if self.has_answer || !self.command.is_empty() {
            self.judge(rt)?;
        }
        self.command.clear();
        self.want.clear();
        self.has_answer = false;
        Ok(())
    }

    /// Adds the words to the command or to the answer.
    fn add(&mut self, text: &'a str) -> io::Result<()> {
        if self.has_answer {
            Ok(add_words(&mut self.want, text)?)
        } else {
            Ok(add_words(&mut self.command, text)?)
        }
    }

    /// Reads the line of this number.
    fn read(
        &mut self,
        rt: &(impl Print + AllocGlobal),
        line: usize,
        text: &'a str,
    ) -> io::Result<()> {
        match text.as_bytes().first() {
            None | Some(b'#') => Ok(()),
            // A new table.
            Some(b'=') => {
                self.end_row(rt)?;
                self.world = World::new(rt.alloc())?;
                self.host = Host::new(rt.alloc());
                self.is_host = text.starts_with("= host:");
                Ok(())
            }
            Some(b'>') => {
                self.has_answer = true;
                self.add(text.strip_prefix('>').unwrap_or(text))
            }
            Some(b' ') => self.add(text),
            Some(_) => {
                self.end_row(rt)?;
                self.line = line;
                self.add(text.strip_prefix('<').unwrap_or(text))
            }
        }
    }

    /// Reads all lines, and ends the last row.
    pub(crate) fn read_all(
        &mut self,
        rt: &(impl Print + AllocGlobal),
        text: &'a str,
    ) -> io::Result<()> {
        let mut number = 0usize;
        for line in text.lines() {
            number = number.saturating_add(1);
            self.read(rt, number, line)?;
        }
        self.end_row(rt)
    }

    /// Prints how many rows there were, and how many of them differ.
    pub(crate) fn print_counts(&self, rt: &impl Print) -> io::Result<()> {
        println!(rt; "{}: {} rows, {} differ", self.file, self.rows, self.differ)
    }
}
