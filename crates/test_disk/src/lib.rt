//! Tests of disks and of what is put there: crashes at each moment of a growing file, a file of the system, records,
//! checks, inputs as bytes, and streams of bytes.
//!
//! Contracts say what a crash may leave; here stand worked images of crashes, published checks, worked bytes, and that
//! memory is found where there is some. A module is named by what it tries.
#![tactic(auto)]

#[cfg(test)]
mod crashes;
#[cfg(test)]
mod crc;
#[cfg(test)]
mod file_disk;
#[cfg(test)]
mod input;
#[cfg(test)]
mod records;
#[cfg(test)]
mod streams;
