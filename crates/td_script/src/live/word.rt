ghost use Rattle.std.specs.Prelude.{◌≡◌};
ghost use Rattle.td_script.specs.LiveWords.{live_spelling, live_word_named};

/// The first word of a command of a live script.
#[derive(Clone, Copy, Debug, PartialEq, Eq)]
pub(crate) enum LiveWord {
    Sites,
    Turns,
    Loss,
    Editor,
    AtEditor(EditorWord),
}

/// The first word of a command whose first argument is an editor.
#[derive(Clone, Copy, Debug, PartialEq, Eq)]
pub(crate) enum EditorWord {
    Ins,
    Paste,
    Del,
    Flat,
    Cancel,
    Look,
}

/// The words of the language.
const LIVE_WORDS: [LiveWord; 10] = [
    LiveWord::Sites,
    LiveWord::Turns,
    LiveWord::Loss,
    LiveWord::Editor,
    LiveWord::AtEditor(EditorWord::Ins),
    LiveWord::AtEditor(EditorWord::Paste),
    LiveWord::AtEditor(EditorWord::Del),
    LiveWord::AtEditor(EditorWord::Flat),
    LiveWord::AtEditor(EditorWord::Cancel),
    LiveWord::AtEditor(EditorWord::Look),
];

impl LiveWord {
    /// The word as it is written.
    pub(crate) fn spelling(self) -> &'static str
        ensures { result.now ≡ live_spelling self }
    {
        match self {
            LiveWord::Sites => "sites",
            LiveWord::Turns => "turns",
            LiveWord::Loss => "loss",
            LiveWord::Editor => "editor",
            LiveWord::AtEditor(EditorWord::Ins) => "ins",
            LiveWord::AtEditor(EditorWord::Paste) => "paste",
            LiveWord::AtEditor(EditorWord::Del) => "del",
            LiveWord::AtEditor(EditorWord::Flat) => "flat",
            LiveWord::AtEditor(EditorWord::Cancel) => "cancel",
            LiveWord::AtEditor(EditorWord::Look) => "look",
        }
    }

    /// The word that is written so.
    pub(crate) fn named(name: &str) -> Option<LiveWord>
        ensures { result ≡ live_word_named name.now }
    {
        LIVE_WORDS
            .iter()
            .copied()
            .find(|word| word.spelling() == name)
    }
}
