//! Tests of shells: two sites that send each other packets, lines that are no command, journals that are opened again
//! after a crash, and streams and disks that fail. A module is named by what it tries.
#![tactic(auto)]

#[cfg(test)]
mod conversations;
#[cfg(test)]
mod endings;
#[cfg(test)]
mod faults;
#[cfg(test)]
mod shells;
