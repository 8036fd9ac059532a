ghost use Rattle.std.specs.Prelude.{◌≡◌};
ghost use Rattle.td_script.specs.Words.{spelling, word_named};

/// The first word of a command.
#[derive(Clone, Copy, Debug, PartialEq, Eq)]
pub(crate) enum Word {
    Sites,
    Settle,
    AtSite(SiteWord),
}

/// The first word of a command whose first argument is a site.
#[derive(Clone, Copy, Debug, PartialEq, Eq)]
pub(crate) enum SiteWord {
    Ins,
    Paste,
    Del,
    Flat,
    Cancel,
    Give,
    Show,
    Tree,
    Count,
    Mark,
    Unmark,
    Meet,
    Marks,
}

/// The words of the language.
const WORDS: [Word; 15] = [
    Word::Sites,
    Word::Settle,
    Word::AtSite(SiteWord::Ins),
    Word::AtSite(SiteWord::Paste),
    Word::AtSite(SiteWord::Del),
    Word::AtSite(SiteWord::Flat),
    Word::AtSite(SiteWord::Cancel),
    Word::AtSite(SiteWord::Give),
    Word::AtSite(SiteWord::Show),
    Word::AtSite(SiteWord::Tree),
    Word::AtSite(SiteWord::Count),
    Word::AtSite(SiteWord::Mark),
    Word::AtSite(SiteWord::Unmark),
    Word::AtSite(SiteWord::Meet),
    Word::AtSite(SiteWord::Marks),
];

impl Word {
    /// The word as it is written.
    pub(crate) fn spelling(self) -> &'static str
        ensures { result.now ≡ spelling self }
    {
        match self {
            Word::Sites => "sites",
            Word::Settle => "settle",
            Word::AtSite(SiteWord::Ins) => "ins",
            Word::AtSite(SiteWord::Paste) => "paste",
            Word::AtSite(SiteWord::Del) => "del",
            Word::AtSite(SiteWord::Flat) => "flat",
            Word::AtSite(SiteWord::Cancel) => "cancel",
            Word::AtSite(SiteWord::Give) => "give",
            Word::AtSite(SiteWord::Show) => "show",
            Word::AtSite(SiteWord::Tree) => "tree",
            Word::AtSite(SiteWord::Count) => "count",
            Word::AtSite(SiteWord::Mark) => "mark",
            Word::AtSite(SiteWord::Unmark) => "unmark",
            Word::AtSite(SiteWord::Meet) => "meet",
            Word::AtSite(SiteWord::Marks) => "marks",
        }
    }

    /// The word that is written so.
    pub(crate) fn named(name: &str) -> Option<Word>
        ensures { result ≡ word_named name.now }
    {
        WORDS.iter().copied().find(|word| word.spelling() == name)
    }
}
