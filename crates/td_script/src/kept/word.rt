ghost use Rattle.std.specs.Prelude.{◌≡◌};
ghost use Rattle.td_script.specs.KeptWords.{kept_spelling, kept_word_named};

/// The first word of a command of a kept script.
#[derive(Clone, Copy, Debug, PartialEq, Eq)]
pub(crate) enum KeptWord {
    Sites,
    AtSite(KeptSiteWord),
}

/// The first word of a command whose first argument is a site.
#[derive(Clone, Copy, Debug, PartialEq, Eq)]
pub(crate) enum KeptSiteWord {
    Ins,
    Del,
    Flat,
    Cancel,
    Give,
    Show,
    Crash,
}

/// The words of the language.
const KEPT_WORDS: [KeptWord; 8] = [
    KeptWord::Sites,
    KeptWord::AtSite(KeptSiteWord::Ins),
    KeptWord::AtSite(KeptSiteWord::Del),
    KeptWord::AtSite(KeptSiteWord::Flat),
    KeptWord::AtSite(KeptSiteWord::Cancel),
    KeptWord::AtSite(KeptSiteWord::Give),
    KeptWord::AtSite(KeptSiteWord::Show),
    KeptWord::AtSite(KeptSiteWord::Crash),
];

impl KeptWord {
    /// The word as it is written.
    pub(crate) fn spelling(self) -> &'static str
        ensures { result.now ≡ kept_spelling self }
    {
        match self {
            KeptWord::Sites => "sites",
            KeptWord::AtSite(KeptSiteWord::Ins) => "ins",
            KeptWord::AtSite(KeptSiteWord::Del) => "del",
            KeptWord::AtSite(KeptSiteWord::Flat) => "flat",
            KeptWord::AtSite(KeptSiteWord::Cancel) => "cancel",
            KeptWord::AtSite(KeptSiteWord::Give) => "give",
            KeptWord::AtSite(KeptSiteWord::Show) => "show",
            KeptWord::AtSite(KeptSiteWord::Crash) => "crash",
        }
    }

    /// The word that is written so.
    pub(crate) fn named(name: &str) -> Option<KeptWord>
        ensures { result ≡ kept_word_named name.now }
    {
        KEPT_WORDS
            .iter()
            .copied()
            .find(|word| word.spelling() == name)
    }
}
