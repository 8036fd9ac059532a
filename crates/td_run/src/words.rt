ghost use Rattle.std.specs.Prelude.{◌≡◌, ◌↔◌, ◌∷◌, [], ℕ, IfNone, IfSome, IsTrue};
ghost use Rattle.td_run.specs.Words.{IsForm, IsFormOf, IsGen, IsReading};

use td_base::Bytes;
use td_gen::MAX_SIZE;
use td_script::number_of;

/// A language in which an input is written.
#[derive(Clone, Copy, Debug, PartialEq, Eq)]
pub enum Language {
    /// `play`: a script.
    Play,
    /// `live`: a live script.
    Live,
    /// `kept`: a kept script.
    Kept,
    /// `check`: a trace.
    Trace,
}

/// What the words of the command line ask for.
#[derive(Clone, Copy, Debug, PartialEq, Eq)]
pub(crate) enum Form {
    /// To play the script of the input, or to judge its trace.
    Reads(Language),
    /// `gen SIZE NUMBER`: to play a generated script.
    Gen { size: u32, number: u32 },
}

/// What the words ask for, where they are a command.
pub(crate) fn asked_for(words: &[Bytes]) -> Option<Form>
    ensures some { IfSome result (IsFormOf words.now) }
    ensures none { IfNone result (¬ IsForm words.now) }
{
    match words {
        [word] => Some(Form::Reads(language_of(word)?)),
        [word, size, number] => generated(word, size, number),
        _ => None,
    }
}

/// Whether the words ask for a live script.
pub fn is_live(words: &[Bytes]) -> bool
    ensures { IsTrue result ↔ IsReading words.now Language.Live }
{
    matches!(asked_for(words), Some(Form::Reads(Language::Live)))
}

// The language that the word names.
fn language_of(word: &Bytes) -> Option<Language>
    ensures some { IfSome result (IsReading (word.now ∷ [])) }
    ensures none { IfNone result ((language : Language) → ¬ IsReading (word.now ∷ []) language) }
{
    if is_word(word, b"play") {
        return Some(Language::Play);
    }
    if is_word(word, b"live") {
        return Some(Language::Live);
    }
    if is_word(word, b"kept") {
        return Some(Language::Kept);
    }
    if is_word(word, b"check") {
        return Some(Language::Trace);
    }
    None
}

// The size and the number of the generated script that the words ask for.
fn generated(word: &Bytes, size: &Bytes, number: &Bytes) -> Option<Form>
    ensures some { IfSome result (IsFormOf (word.now ∷ size.now ∷ number.now ∷ [])) }
    ensures none { IfNone result ((s n : ℕ) → ¬ IsGen (word.now ∷ size.now ∷ number.now ∷ []) s n) }
{
    if !is_word(word, b"gen") {
        return None;
    }
    let size = number_of(size.as_slice())?;
    let number = number_of(number.as_slice())?;
    (size <= MAX_SIZE).then_some(Form::Gen { size, number })
}

fn is_word(word: &Bytes, name: &[u8]) -> bool
    ensures { IsTrue result ↔ (word.now ≡ name.now) }
{
    word.as_slice() == name
}
