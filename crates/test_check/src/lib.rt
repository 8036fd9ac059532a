//! Tests of the judge of traces: worked traces with their verdicts, what is counted of their entries, and a site in
//! their replay.
//!
//! Contracts say what each call does; here stand examples with expected values from outside, and that memory is found
//! where there is some. `check` and `spoilt` try td_check, and `seat` td_seat.
#![tactic(auto)]

#[cfg(test)]
mod check;
#[cfg(test)]
mod seat;
#[cfg(test)]
mod spoilt;
