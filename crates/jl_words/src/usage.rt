//! The usage of the program and of its subcommands.

use crate::help::Topic;
use crate::texts;
use crate::words::{Mode, command, farm, lines};
use clap::Command;
use std::alloc::{AllocError, Global};

/// The program's name and its version, which is the first line of each usage.
pub const HEADING: &str = "linkd 0.1.0";

/// What the subcommand `report` is for, whose words another crate reads.
pub const REPORT: &str = "Reads class files on disk, and reports what each invocation comes to";

/// The program with all its subcommands.
fn whole<'a>(alloc: Global) -> Result<Command<'a>, AllocError> {
    command(alloc)?.subcommand(Command::new(alloc, "report").about(REPORT))
}

/// The command whose usage is asked for.
fn command_of<'a>(alloc: Global, topic: Topic) -> Result<Command<'a>, AllocError> {
    match topic {
        Topic::Scan => Ok(lines(alloc, Mode::Scan)),
        Topic::Sketch => Ok(lines(alloc, Mode::Sketch)),
        Topic::Run => Ok(lines(alloc, Mode::Run)),
        Topic::Farm => farm(alloc),
        Topic::Program | Topic::Report => whole(alloc),
    }
}

/// What is wrong with words that ask for nothing, the program's name first, in words of clap.
///
/// # Errors
///
/// Want of memory.
pub fn wrong_words(alloc: Global, words: &[String]) -> Result<String, AllocError> {
    let mut text = String::new(alloc);
    let command = whole(alloc)?.bin_name("linkd")?;
    if let Err(error) = command.try_get_matches_from(words) {
        write!(text, "{error}")?;
    }
    text.push_str("\n`linkd --help` has all commands.\n")?;
    Ok(text)
}

/// The usage of the topic, made by clap from what reads the words. Another crate reads the words of `report`, so its usage here is that of
/// the program.
///
/// # Errors
///
/// Want of memory.
pub fn usage_of(alloc: Global, topic: Topic) -> Result<String, AllocError> {
    command_of(alloc, topic)?.before_help(HEADING).render_help()
}
