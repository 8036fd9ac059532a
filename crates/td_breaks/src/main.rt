//! The program `td_breaks`, a test: Unicode's samples of extended grapheme clusters (UAX #29) through
//! `td_text::cut`.
//!
//! Its standard input is `GraphemeBreakTest.txt` of Unicode 15.0.0, and `cut` goes by Unicode 18.0. For each sample
//! that is cut otherwise it prints the number of the line and the sample as it is cut, and at the end how many samples
//! there were. Begin at `verdict`: a sample counts as cut so only where the definition of grapheme clusters cuts its
//! text so.
#![tactic(auto)]

mod code_point;
mod sample;
mod verdict;

use verdict::{Verdict, judge};

// One sample is cut otherwise: line 625, `÷ 2701 × 200D × 2701 ÷`. GB11 joins a pictograph to one behind a ZWJ, and
// U+2701 is Extended_Pictographic in Unicode 15.0 but not in 18.0, so there a break stands behind the ZWJ. The one
// other sample with U+2701, line 626, breaks there in both, since no pictograph stands before its ZWJ. The other
// characters of the samples have the same Grapheme_Cluster_Break and Extended_Pictographic in both versions, and none
// is a consonant to which GB9c, which 15.0 does not have, could join anything: `test_program` tries that rule by
// samples of its own.
fn main(rt: HostRuntime) -> anyhow::Result<()> {
    let mut number: u64 = 0;
    let mut samples: u64 = 0;
    let mut otherwise: u64 = 0;
    for line in rt.lines(rt.alloc()) {
        number = number.saturating_add(1);
        match judge(rt.alloc(), line?.as_str())? {
            Verdict::NoSample => {}
            Verdict::Unreadable => println!(rt; "line {number} can't be read")?,
            Verdict::Same => samples = samples.saturating_add(1),
            Verdict::Otherwise(sample) => {
                samples = samples.saturating_add(1);
                otherwise = otherwise.saturating_add(1);
                println!(rt; "line {number}: {sample}")?;
            }
        }
    }
    println!(rt; "{samples} samples, {otherwise} cut otherwise")?;
    Ok(())
}
