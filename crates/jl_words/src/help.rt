//! Whether the words of the program ask for help, and on what.

ghost use Rattle.std.specs.Prelude.{◌≡◌, map, string_bytes};
ghost use Rattle.jl_words.specs.Help.{topic_of, first_topic, has_flag, has_help_first};
ghost use Rattle.jl_words.specs.Help.{asked_after, help_asked};

/// What a usage is of.
#[derive(Clone, Copy, Debug, PartialEq, Eq)]
pub enum Topic {
    /// The whole program.
    Program,
    /// The subcommand that reads class files.
    Scan,
    /// The subcommand that writes class files.
    Sketch,
    /// The subcommand that obeys commands.
    Run,
    /// The subcommand that links by threads.
    Farm,
    /// The subcommand that reports class files on disk.
    Report,
}

/// The subcommand of this name.
fn topic_of(name: &str) -> Option<Topic>
    ensures { result ≡ topic_of name.now }
{
    match name {
        "scan" => Some(Topic::Scan),
        "sketch" => Some(Topic::Sketch),
        "run" => Some(Topic::Run),
        "farm" => Some(Topic::Farm),
        "report" => Some(Topic::Report),
        _ => None,
    }
}

/// The subcommand that the first word names, or else the program.
fn first_topic(words: &[String]) -> Topic
    ensures { result ≡ first_topic (map string_bytes words.now) }
{
    let Some((word, _rest)) = words.split_first() else {
        return Topic::Program;
    };
    topic_of(word.as_str()).unwrap_or(Topic::Program)
}

/// Whether a flag for help stands among the words, before any word `--`.
fn has_flag(words: &[String]) -> bool
    ensures { result ≡ has_flag (map string_bytes words.now) }
{
    for word in words {
        match word.as_str() {
            "--" => return false,
            "--help" | "-h" => return true,
            _ => {}
        }
    }
    false
}

/// Whether the first word is `help`.
fn has_help_first(words: &[String]) -> bool
    ensures { result ≡ has_help_first (map string_bytes words.now) }
{
    match words.split_first() {
        Some((word, _rest)) => word.as_str() == "help",
        None => false,
    }
}

/// What the words after the program's name ask for help on.
fn asked_after(words: &[String]) -> Option<Topic>
    ensures { result ≡ asked_after (map string_bytes words.now) }
{
    let Some((word, rest)) = words.split_first() else {
        return Some(Topic::Program);
    };
    let word = word.as_str();
    if word == "help" {
        return Some(first_topic(rest));
    }
    // After `report` the word `help` is a path.
    if has_flag(words) || (has_help_first(rest) && topic_of(word).is_some() && word != "report") {
        return Some(first_topic(words));
    }
    None
}

/// What the words ask for help on, the program's name first; none if they ask for no help.
pub fn help_asked(words: &[String]) -> Option<Topic>
    ensures { result ≡ help_asked (map string_bytes words.now) }
{
    match words.split_first() {
        Some((_name, rest)) => asked_after(rest),
        None => Some(Topic::Program),
    }
}
