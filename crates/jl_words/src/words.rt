//! The words that the program was called with.

ghost use Rattle.std.specs.Prelude.{◌≡◌, ◌≢◌, false, IfOk, IfErr, codes, map, option_and_then};
ghost use Rattle.std.specs.Prelude.{string_bytes};
ghost use Rattle.clap.specs.Words.{app_of, found_of, kind_of, one_text, rule_of, subcommand_rows_of};
ghost use Rattle.clap.specs.declared.error.kind.ErrorKind.TheVariants.{OutOfMemory};
ghost use Rattle.jl_words.specs.declared.words.WordsFault.TheVariants.{BadWords, Memory};
ghost use Rattle.jl_words.specs.Words.{AskFor, AskForNothing, word_of};
ghost use Rattle.jl_words.specs.ForProofs.CommandLine.{bare_command, with_scan, with_sketch, with_run, linkd, workers, farm};
ghost use Rattle.jl_words.specs.ForProofs.CommandLine.{mode_of, count_of, asked_by};

use crate::texts;
use clap::error::ErrorKind;
use clap::{Arg, ArgAction, ArgMatches, Command, Error as ClapError, value_parser};
use std::alloc::{AllocError, Global};
use thiserror::Error;

/// How lines are answered.
#[derive(Clone, Copy, Debug, PartialEq, Eq)]
pub enum Mode {
    /// A line is a class file in hexadecimal, and its answer what the file shows.
    Scan,
    /// A line is a sketch in JSON, and its answer the class file in hexadecimal.
    Sketch,
    /// A line is a command in JSON, and its answer what one core replies.
    Run,
}

/// What the words ask for.
#[derive(Clone, Copy, Debug, PartialEq, Eq)]
pub enum Words {
    /// Answers to lines.
    Lines(Mode),
    /// A farm of so many workers, 1 to 16.
    Farm(u8),
}

/// Why words ask for nothing.
#[derive(Clone, Copy, Debug, PartialEq, Eq, Error)]
pub enum WordsFault {
    /// No subcommand, an unknown one, or other words than it takes; a call for help is so too.
    #[error("bad words")]
    BadWords,
    /// Want of memory.
    #[error("out of memory")]
    Memory,
}

impl From<AllocError> for WordsFault {
    ghost from_gives = { λ _ f. f ≡ Memory };

    fn from(_e: AllocError) -> WordsFault {
        WordsFault::Memory
    }
}

/// The fault of words that clap refuses.
fn fault_of(error: &ClapError) -> WordsFault
    ensures memory { kind_of error.now ≡ OutOfMemory → result ≡ Memory }
    ensures bad_words { kind_of error.now ≢ OutOfMemory → result ≡ BadWords }
{
    match error.kind() {
        ErrorKind::OutOfMemory => WordsFault::Memory,
        _ => WordsFault::BadWords,
    }
}

/// The subcommand that answers lines so.
pub(crate) fn lines<'a>(alloc: Global, mode: Mode) -> Command<'a>
    ensures { app_of result ≡ bare_command (word_of mode) }
{
    match mode {
        Mode::Scan => Command::new(alloc, "scan")
            .disable_help_flag(true)
            .about(texts::SCAN)
            .override_usage("linkd scan < FILE")
            .after_help(texts::AFTER_SCAN),
        Mode::Sketch => Command::new(alloc, "sketch")
            .disable_help_flag(true)
            .about(texts::SKETCH)
            .override_usage("linkd sketch < FILE")
            .after_help(texts::AFTER_SKETCH),
        Mode::Run => Command::new(alloc, "run")
            .disable_help_flag(true)
            .about(texts::RUN)
            .override_usage("linkd run < FILE")
            .after_help(texts::AFTER_RUN),
    }
}

/// The program with its first subcommand.
fn with_scan<'a>(alloc: Global) -> Result<Command<'a>, AllocError>
    ensures { IfOk result (λ command. app_of command ≡ with_scan) }
{
    Command::new(alloc, "linkd")
        .disable_help_flag(true)
        .disable_help_subcommand(true)
        .subcommand_required(true)
        .about(texts::PROGRAM)
        .after_help(texts::AFTER_PROGRAM)
        .subcommand(lines(alloc, Mode::Scan))
}

/// The program with its first two subcommands.
fn with_sketch<'a>(alloc: Global) -> Result<Command<'a>, AllocError>
    ensures { IfOk result (λ command. app_of command ≡ with_sketch) }
{
    with_scan(alloc)?.subcommand(lines(alloc, Mode::Sketch))
}

/// The program with its subcommands that answer lines.
fn with_run<'a>(alloc: Global) -> Result<Command<'a>, AllocError>
    ensures { IfOk result (λ command. app_of command ≡ with_run) }
{
    with_sketch(alloc)?.subcommand(lines(alloc, Mode::Run))
}

/// The option that says how many workers a farm has.
fn workers<'a>(alloc: Global) -> Arg<'a>
    ensures rule { rule_of result ≡ workers }
    ensures local { result.global ≡ false }
{
    Arg::new(alloc, "workers")
        .long("workers")
        .required(true)
        .action(ArgAction::Set)
        .value_parser(value_parser!(u8).range(1..=16))
        .value_name("N")
        .help("How many workers link, from 1 to 16")
}

/// The subcommand that asks for a farm.
pub(crate) fn farm<'a>(alloc: Global) -> Result<Command<'a>, AllocError>
    ensures { IfOk result (λ command. app_of command ≡ farm) }
{
    Command::new(alloc, "farm")
        .disable_help_flag(true)
        .about(texts::FARM)
        .override_usage("linkd farm --workers N < FILE")
        .after_help(texts::AFTER_FARM)
        .arg(workers(alloc))
}

/// The words of the program, as clap takes them.
pub(crate) fn command<'a>(alloc: Global) -> Result<Command<'a>, AllocError>
    ensures { IfOk result (λ command. app_of command ≡ linkd) }
{
    with_run(alloc)?.subcommand(farm(alloc)?)
}

/// The mode of the subcommand.
fn mode_of(name: &str) -> Option<Mode>
    ensures { result ≡ mode_of name.now }
{
    match name {
        "scan" => Some(Mode::Scan),
        "sketch" => Some(Mode::Sketch),
        "run" => Some(Mode::Run),
        _ => None,
    }
}

/// The count of workers among the options of a farm.
fn count_of(options: &ArgMatches) -> Option<u8>
    ensures { result ≡ option_and_then count_of (one_text (found_of options.now) (codes "workers")) }
{
    options.get_one::<u8>("workers")
}

/// What the subcommand that was met asks for.
fn asked_by(matches: &ArgMatches) -> Option<Words>
    ensures { result ≡ asked_by (subcommand_rows_of matches.now) }
{
    let (name, options) = matches.subcommand()?;
    match name {
        "farm" => Some(Words::Farm(count_of(options)?)),
        _ => Some(Words::Lines(mode_of(name)?)),
    }
}

/// What the words ask for, the program's name first.
///
/// # Errors
///
/// [`WordsFault::BadWords`] if they ask for nothing, and [`WordsFault::Memory`].
pub fn read_words(alloc: Global, words: &[String]) -> Result<Words, WordsFault>
    ensures asked { IfOk result (λ asked. AskFor asked (map string_bytes words.now)) }
    ensures refused { IfErr result (λ fault. fault ≡ BadWords
        → AskForNothing (map string_bytes words.now)) }
{
    match command(alloc)?.try_get_matches_from(words) {
        Ok(matches) => match asked_by(&matches) {
            Some(asked) => Ok(asked),
            None => Err(WordsFault::BadWords),
        },
        Err(error) => Err(fault_of(&error)),
    }
}
