//! What holds of all words.

ghost use Rattle.std.specs.Prelude.{◌≡◌, ℕ, List, None};
ghost use Rattle.jl_words.specs.declared.words.Words.{Words};
ghost use Rattle.jl_words.specs.Words.{AskFor};
ghost use Rattle.jl_words.specs.Help.{help_asked};

/// Words that ask for answers to lines, or for a farm, ask for no help.
pub fn asking_words_want_no_help()
    ensures { (asked : Words) (words : List (List ℕ)) → AskFor asked words → help_asked words ≡ None }
{}
