ghost use Rattle.std.specs.Prelude.{◌≡◌};
ghost use Rattle.td_script.specs.ShellWords.{shell_spelling, shell_word_named};

/// The first word of a command of a shell.
#[derive(Clone, Copy, Debug, PartialEq, Eq)]
pub(crate) enum ShellWord {
    Ins,
    Paste,
    Del,
    Flat,
    Cancel,
    Take,
    Send,
    Show,
    Tree,
    Count,
}

/// The words of the language.
const SHELL_WORDS: [ShellWord; 10] = [
    ShellWord::Ins,
    ShellWord::Paste,
    ShellWord::Del,
    ShellWord::Flat,
    ShellWord::Cancel,
    ShellWord::Take,
    ShellWord::Send,
    ShellWord::Show,
    ShellWord::Tree,
    ShellWord::Count,
];

impl ShellWord {
    /// The word as it is written.
    pub(crate) fn spelling(self) -> &'static str
        ensures { result.now ≡ shell_spelling self }
    {
        match self {
            ShellWord::Ins => "ins",
            ShellWord::Paste => "paste",
            ShellWord::Del => "del",
            ShellWord::Flat => "flat",
            ShellWord::Cancel => "cancel",
            ShellWord::Take => "take",
            ShellWord::Send => "send",
            ShellWord::Show => "show",
            ShellWord::Tree => "tree",
            ShellWord::Count => "count",
        }
    }

    /// The word that is written so.
    pub(crate) fn named(name: &str) -> Option<ShellWord>
        ensures { result ≡ shell_word_named name.now }
    {
        SHELL_WORDS
            .iter()
            .copied()
            .find(|word| word.spelling() == name)
    }
}
