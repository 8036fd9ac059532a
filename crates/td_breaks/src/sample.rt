ghost use Rattle.std.specs.Prelude.{◌≡◌, IfOk, string_bytes};
ghost use Rattle.std.specs.List.{concat};

use crate::code_point::code_point;
use std::alloc::Global;
use td_base::{Atom, Memory};
use td_text::AtomList;

/// What stands before the comment of a line.
pub(crate) fn before_comment(line: &str) -> &str {
    match line.split_once('#') {
        Some((sample, _comment)) => sample.trim(),
        None => line.trim(),
    }
}

/// What stands between one break of the sample and the next. `None` where it is no sample, or has a cluster that is no
/// atom.
pub(crate) fn clusters_of(alloc: Global, sample: &str) -> Result<Option<AtomList>, Memory> {
    let mut clusters = AtomList::new(alloc);
    let Some(inner) = between_outer_breaks(sample) else {
        return Ok(None);
    };
    for words in inner.split('÷') {
        let Some(cluster) = cluster_of(alloc, words)? else {
            return Ok(None);
        };
        clusters.push(cluster)?;
    }
    Ok(Some(clusters))
}

// A sample breaks at both of its ends.
fn between_outer_breaks(sample: &str) -> Option<&str> {
    sample.strip_prefix('÷')?.strip_suffix('÷')
}

// The characters whose code points stand here, with no break.
fn cluster_of(alloc: Global, words: &str) -> Result<Option<Atom>, Memory> {
    let mut text = String::new(alloc);
    for word in words.split('×') {
        let Some(character) = code_point(word.trim()) else {
            return Ok(None);
        };
        text.push(character)?;
    }
    Ok(Atom::new(text.as_bytes()).ok())
}

/// The text that the atoms make up.
pub(crate) fn text_of(alloc: Global, atoms: &AtomList) -> Result<String, Memory>
    ensures { IfOk result (λ text. string_bytes text ≡ concat atoms.now) }
{
    let mut text = String::new(alloc);
    for atom in atoms.iter() {
        text.push_str(atom.as_str())?;
    }
    Ok(text)
}

/// The sample that breaks between these atoms.
pub(crate) fn sample_of(alloc: Global, atoms: &AtomList) -> Result<String, Memory> {
    let mut sample = String::from_str(alloc, "÷")?;
    for atom in atoms.iter() {
        push_cluster(&mut sample, &atom)?;
        sample.push_str(" ÷")?;
    }
    Ok(sample)
}

// Adds the code points of the atom.
fn push_cluster(sample: &mut String, atom: &Atom) -> Result<(), Memory> {
    for (index, character) in atom.as_str().chars().enumerate() {
        let mark = if index == 0 { "" } else { " ×" };
        write!(sample, "{mark} {:04X}", character as u32)?;
    }
    Ok(())
}
