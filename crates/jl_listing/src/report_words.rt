//! What the words after `linkd report` ask for.

use crate::chosen::{Choice, Chosen, FORMS};
use crate::fault::ReportFault;
use crate::releases::{FIRST_RELEASE, LAST_RELEASE, newest_of};
use crate::usage;
use clap::builder::ValueParser;
use clap::error::ErrorKind;
use clap::{Arg, ArgAction, ArgMatches, Command, value_parser};
use std::alloc::{AllocError, Global};

/// How a report is written.
#[derive(Clone, Copy, Debug, PartialEq, Eq)]
pub enum Form {
    /// What there is of each instruction and form, in a few lines.
    Totals,
    /// Each invocation, by class and method, and then the totals.
    Sites,
    /// Each invocation as a line of JSON.
    Json,
}

/// What the words of a report ask for.
#[derive(Debug)]
pub struct ReportWords {
    /// The words themselves, `report` first.
    pub words: Vec<String>,
    pub form: Form,
    /// Whether each class is told, too, with what it declares.
    pub classes: bool,
    /// Whether all receivers of megamorphic links are asked which methods they run.
    pub all_receivers: bool,
    /// Which invocations are reported.
    pub chosen: Chosen,
    /// Class files, and folders that have such, whose classes are reported.
    pub paths: Vec<String>,
    /// Those whose classes are there, too, and not reported.
    pub beside: Vec<String>,
    /// Those whose classes are defined last, and of which it is told which links they drop.
    pub breaks: Vec<String>,
    /// The file into which a page of HTML is written.
    pub html: Option<String>,
    /// The newest major version of the class files that are read.
    pub newest: u16,
}

/// Written out, so that what drops one makes one call of it and doesn't take apart what it holds.
impl Drop for ReportWords {
    fn drop(self) {
        let ReportWords {
            words: _words,
            form: _form,
            classes: _classes,
            all_receivers: _all_receivers,
            chosen: _chosen,
            paths: _paths,
            beside: _beside,
            breaks: _breaks,
            html: _html,
            newest: _newest,
        } = self;
    }
}

/// A flag that takes no value.
fn flag<'a>(alloc: Global, name: &'a str, help: &'a str) -> Arg<'a> {
    Arg::new(alloc, name)
        .long(name)
        .action(ArgAction::SetTrue)
        .help(help)
}

/// An option that takes a value, and may come again.
fn option<'a>(alloc: Global, name: &'a str, value: &'a str, help: &'a str) -> Arg<'a> {
    Arg::new(alloc, name)
        .long(name)
        .action(ArgAction::Append)
        .value_name(value)
        .help(help)
}

/// The option that says up to which release class files are read.
fn release<'a>(alloc: Global) -> Arg<'a> {
    let first = i64::from(FIRST_RELEASE);
    let last = i64::from(LAST_RELEASE);
    Arg::new(alloc, "release")
        .long("release")
        .action(ArgAction::Set)
        .value_parser(value_parser!(u16).range(first..=last))
        .value_name("N")
        .help(usage::RELEASE)
}

/// The paths, of which there is one at least.
fn paths<'a>(alloc: Global) -> Arg<'a> {
    Arg::new(alloc, "paths")
        .required(true)
        .num_args(1..)
        .action(ArgAction::Append)
        .value_name("PATH")
        .help(usage::PATHS)
}

/// The subcommand with its flags.
fn with_flags<'a>(alloc: Global) -> Result<Command<'a>, AllocError> {
    Command::new(alloc, "report")
        .disable_help_flag(true)
        .arg(flag(alloc, "sites", usage::SITES).conflicts_with("json")?)?
        .arg(flag(alloc, "json", usage::JSON))?
        .arg(flag(alloc, "classes", usage::CLASSES).requires_arg("json")?)?
        .arg(flag(alloc, "all-receivers", usage::ALL_RECEIVERS))
}

/// The words of the subcommand, as clap takes them.
pub(crate) fn command<'a>(alloc: Global) -> Result<Command<'a>, AllocError> {
    with_flags(alloc)?
        .arg(option(alloc, "only", "FORM", usage::ONLY).value_parser(ValueParser::Names(FORMS)))?
        .arg(option(alloc, "in", "PREFIX", usage::IN))?
        .arg(option(alloc, "with", "PATH", usage::WITH))?
        .arg(option(alloc, "breaks", "PATH", usage::BREAKS))?
        .arg(option(alloc, "html", "FILE", usage::HTML))?
        .arg(release(alloc))?
        .arg(paths(alloc))
}

/// The values of the option, in order.
fn texts(alloc: Global, matches: &ArgMatches, id: &str) -> Result<Vec<String>, AllocError> {
    let mut texts = Vec::new(alloc);
    if let Some(values) = matches.get_strs(id) {
        for value in values {
            texts.push(String::from_str(alloc, value)?)?;
        }
    }
    Ok(texts)
}

/// The form that the flags ask for.
fn form_of(matches: &ArgMatches) -> Form {
    if matches.get_flag("json") {
        Form::Json
    } else if matches.get_flag("sites") {
        Form::Sites
    } else {
        Form::Totals
    }
}

/// Which invocations are asked for, by what is found of them: all if the list is empty. `None` if a word names nothing.
fn choices(alloc: Global, matches: &ArgMatches) -> Result<Option<Vec<Choice>>, AllocError> {
    let mut choices = Vec::new(alloc);
    if let Some(words) = matches.get_strs("only") {
        for word in words {
            match Choice::named(word) {
                Some(choice) => choices.push(choice)?,
                None => return Ok(None),
            }
        }
    }
    Ok(Some(choices))
}

/// What the words ask for, `report` first. `None` if they ask for nothing.
///
/// # Errors
///
/// Want of memory.
pub fn read_report_words(
    alloc: Global,
    words: &[String],
) -> Result<Option<ReportWords>, ReportFault> {
    match command(alloc)?.try_get_matches_from(words) {
        Ok(matches) => asked_by(alloc, words, &matches),
        Err(error) => match error.kind() {
            ErrorKind::OutOfMemory => Err(ReportFault::Memory),
            _ => Ok(None),
        },
    }
}

/// What is wrong with words that ask for nothing, `report` first, in words of clap.
///
/// # Errors
///
/// Want of memory.
pub fn wrong_in_report(alloc: Global, words: &[String]) -> Result<String, ReportFault> {
    let mut text = String::new(alloc);
    let command = command(alloc)?.bin_name("linkd report")?;
    if let Err(error) = command.try_get_matches_from(words) {
        write!(text, "{error}")?;
    }
    text.push_str("\n`linkd report --help` has all options.\n")?;
    Ok(text)
}

/// What the words ask for that are matched so.
fn asked_by(
    alloc: Global,
    words: &[String],
    matches: &ArgMatches,
) -> Result<Option<ReportWords>, ReportFault> {
    let Some(choices) = choices(alloc, matches)? else {
        return Ok(None);
    };
    let prefixes = texts(alloc, matches, "in")?;
    let chosen = Chosen::new(alloc, choices, prefixes)?;
    let mut asked = ReportWords {
        words: Vec::new(alloc),
        form: form_of(matches),
        classes: matches.get_flag("classes"),
        all_receivers: matches.get_flag("all-receivers"),
        chosen,
        paths: Vec::new(alloc),
        beside: Vec::new(alloc),
        breaks: Vec::new(alloc),
        html: None,
        newest: newest_of(matches.get_one::<u16>("release").unwrap_or(LAST_RELEASE)),
    };
    for word in words {
        asked.words.push(String::from_str(alloc, word.as_str())?)?;
    }
    asked.paths = texts(alloc, matches, "paths")?;
    asked.beside = texts(alloc, matches, "with")?;
    asked.breaks = texts(alloc, matches, "breaks")?;
    let mut pages = texts(alloc, matches, "html")?;
    asked.html = pages.pop();
    Ok(Some(asked))
}
