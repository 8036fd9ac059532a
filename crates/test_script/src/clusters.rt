use std::alloc::Global;
use std::process::Abort;
use std::test::Fail;
use td_script::{Kind, ScriptFault, read_script};
use td_text::{CutFault, cut};

// The last samples of GraphemeBreakTest.txt of Unicode 15.0.0, with a bar at each boundary. The one with U+2701 is
// left out: `unicode_segmentation` goes by a later version, in which U+2701 is no pictograph.
const SAMPLES: [&str; 23] = [
    "\u{d}\u{a}|\u{61}|\u{a}|\u{308}",
    "\u{61}\u{308}",
    "\u{20}\u{200d}|\u{646}",
    "\u{646}\u{200d}|\u{20}",
    "\u{1100}\u{1100}",
    "\u{ac00}\u{11a8}|\u{1100}",
    "\u{ac01}\u{11a8}|\u{1100}",
    "\u{1f1e6}\u{1f1e7}|\u{1f1e8}|\u{62}",
    "\u{61}|\u{1f1e6}\u{1f1e7}|\u{1f1e8}|\u{62}",
    "\u{61}|\u{1f1e6}\u{1f1e7}\u{200d}|\u{1f1e8}|\u{62}",
    "\u{61}|\u{1f1e6}\u{200d}|\u{1f1e7}\u{1f1e8}|\u{62}",
    "\u{61}|\u{1f1e6}\u{1f1e7}|\u{1f1e8}\u{1f1e9}|\u{62}",
    "\u{61}\u{200d}",
    "\u{61}\u{308}|\u{62}",
    "\u{61}\u{903}|\u{62}",
    "\u{61}|\u{600}\u{62}",
    "\u{1f476}\u{1f3ff}|\u{1f476}",
    "\u{61}\u{1f3ff}|\u{1f476}",
    "\u{61}\u{1f3ff}|\u{1f476}\u{200d}\u{1f6d1}",
    "\u{1f476}\u{1f3ff}\u{308}\u{200d}\u{1f476}\u{1f3ff}",
    "\u{1f6d1}\u{200d}\u{1f6d1}",
    "\u{61}\u{200d}|\u{1f6d1}",
    "\u{61}\u{200d}|\u{2701}",
];

// Samples of GB9c, which came after 15.0.0: the virama U+094D joins a consonant behind it to what stands before it.
// Since 18.0 that need not be a consonant, so the last sample breaks before U+0924 by an earlier version.
const VIRAMAS: [&str; 8] = [
    "\u{915}\u{94d}\u{937}",
    "\u{915}\u{94d}\u{94d}\u{924}",
    "\u{915}\u{94d}\u{200d}\u{924}",
    "\u{915}\u{94d}\u{924}\u{94d}\u{92f}",
    "\u{915}|\u{924}",
    "\u{915}\u{94d}|\u{61}",
    "\u{915}\u{94d}\u{924}|\u{61}",
    "\u{61}\u{94d}\u{924}",
];

// Texts of ASCII break between any two characters but CR and LF (GB3 to GB5, GB999), and the others here as they say.
const NEAR_ASCII: [&str; 16] = [
    "a",
    "a|b|c",
    "\r",
    "\r\n",
    "a|\r\n",
    "a|\r|a|\n",
    "\n|\r",
    "\r|\r\n|\n",
    "a|\n|\n|b",
    "\0|\t| |\u{1f}|\u{7f}|~",
    "\u{e9}",
    "a|\u{e9}|b",
    "e\u{301}",
    "a|e\u{301}|\r\n",
    "\n|\u{301}|a",
    "\u{7f}|\u{80}|a",
];

fn is_cut_at_its_bars(rt: &impl Abort, alloc: Global, sample: &str) -> Result<(), Fail> {
    let mut text = String::new(alloc);
    for part in sample.split('|') {
        text.push_str(part)?;
    }
    let atoms = cut(alloc, &text)?;
    assert_eq!(rt;
        atoms.len() as usize,
        sample.split('|').count(),
        "at {sample:?}"
    );
    for (atom, part) in atoms.iter().zip(sample.split('|')) {
        assert_eq!(rt; atom.bytes(), part.as_bytes(), "at {sample:?}");
    }
    Ok(())
}

#[test]
fn samples_of_the_unicode_break_test_are_cut_at_their_bars(rt: HostRuntime) -> Result<(), Fail> {
    for sample in SAMPLES {
        is_cut_at_its_bars(&rt, rt.alloc(), sample)?;
    }
    Ok(())
}

#[test]
fn a_virama_joins_the_consonant_behind_it(rt: HostRuntime) -> Result<(), Fail> {
    for sample in VIRAMAS {
        is_cut_at_its_bars(&rt, rt.alloc(), sample)?;
    }
    Ok(())
}

#[test]
fn texts_in_and_near_ascii_are_cut_at_their_bars(rt: HostRuntime) -> Result<(), Fail> {
    assert!(rt; cut(rt.alloc(), "")?.is_empty());
    for sample in NEAR_ASCII {
        is_cut_at_its_bars(&rt, rt.alloc(), sample)?;
    }
    Ok(())
}

// A letter and so many marks of two bytes above it: one cluster.
fn marked(alloc: Global, marks: usize) -> Result<String, Fail> {
    let mut text = String::from_str(alloc, "ba")?;
    for _ in 0..marks {
        text.push('\u{301}')?;
    }
    Ok(text)
}

fn script_of(alloc: Global, text: &str) -> Result<String, Fail> {
    Ok(format!(in alloc; "sites 1\nins 1 0 \"{text}\"\n")?)
}

fn is_cut(rt: &impl Abort, alloc: Global, text: &str) -> Result<(), Fail> {
    assert_eq!(rt; cut(alloc, text)?.len(), 2);
    let script = script_of(alloc, text)?;
    assert!(rt; read_script(alloc, script.as_bytes()).is_ok());
    Ok(())
}

fn is_too_long(rt: &impl Abort, alloc: Global, text: &str) -> Result<(), Fail> {
    assert_eq!(rt; cut(alloc, text).err(), Some(CutFault::Long { index: 1 }));
    let script = script_of(alloc, text)?;
    let fault = ScriptFault::Fault {
        line: 2,
        kind: Kind::Atom,
    };
    assert_eq!(rt; read_script(alloc, script.as_bytes()).err(), Some(fault));
    Ok(())
}

#[test]
fn a_cluster_of_65_bytes_is_too_long(rt: HostRuntime) -> Result<(), Fail> {
    let fits = marked(rt.alloc(), 31)?;
    is_cut(&rt, rt.alloc(), &fits)?;
    let too_long = marked(rt.alloc(), 32)?;
    is_too_long(&rt, rt.alloc(), &too_long)
}
