ghost use Rattle.std.specs.Prelude.{◌≡◌, ◌<◌, ◌≤◌, ◌-◌, length, replicate, sum};
ghost use Rattle.td_clock.specs.Vector.{IsVector, vector_get, vector_set, vector_has};
ghost use Rattle.td_clock.specs.Vector.{vector_covers, vector_join, vector_bump};

use std::marker::Model;
use td_base::{Dot, MAX_SEQ, MAX_SITE, Site};

const PLACES: usize = MAX_SITE as usize;

/// A version vector: for each of 1 to `MAX_SITE` sites, how many of its operations are known, up to `MAX_SEQ`.
/// Contracts see the list of these numbers. Sites are within the size (of `has` they need not be), and two vectors
/// have one size. No call takes memory.
#[derive(Clone, Copy, Debug, PartialEq, Eq)]
pub struct Vector {
    size: u8,
    // the number of site s at place s - 1, and zeros past the size
    numbers: [u16; PLACES],
}

impl Model for Vector {
    ghost use Rattle.std.specs.Prelude.{ℕ, List, length, take};

    ghost Value = { List ℕ };

    ghost use Rattle.td_clock.specs.VectorParts.{IsVectorParts, numbers_of};
    ghost use Rattle.std.proofs.Common.{sym};

    ghost view = { λ v. take v.size v.numbers };

    ghost invariant = { λ v. IsVectorParts v.size v.numbers };

    ghost inverse = { λ v. record { size = length v; numbers = numbers_of v } };

    ghost inverse_ok = { λ v h i. record { size = sym h.size_again i; numbers = sym h.numbers_again i } };
}

impl Vector {
    /// The vector of n sites of which no operation is known.
    pub fn new(n: u8) -> Vector
        requires some { 1 ≤ n }
        requires short { n ≤ MAX_SITE }
        ensures { result ≡ replicate n 0 }
    {
        Vector {
            size: n,
            numbers: [0; PLACES],
        }
    }

    /// The vector with these numbers, by site.
    pub fn of(numbers: &[u16]) -> Vector
        requires some { 1 ≤ length numbers.now }
        requires short { length numbers.now ≤ MAX_SITE }
        ensures { result ≡ numbers.now }
    {
        let mut all = [0; PLACES];
        all[..numbers.len()].copy_from_slice(numbers);
        Vector {
            size: numbers.len() as u8,
            numbers: all,
        }
    }

    /// Its numbers, by site.
    pub fn numbers(&self) -> &[u16]
        ensures numbers { result.now ≡ self.now }
        ensures short { length result.now ≤ PLACES }
    {
        &self.numbers[..self.size as usize]
    }

    /// The number of sites.
    pub fn size(&self) -> u8
        ensures size { result ≡ length self.now }
        ensures vector { IsVector self.now }
    {
        self.size
    }

    /// How many operations of the site are known.
    pub fn get(&self, site: Site) -> u32
        requires { site ≤ length self.now }
        ensures number { result ≡ vector_get self.now site }
        ensures small { result ≤ MAX_SEQ }
    {
        u32::from(self.numbers[site.place()])
    }

    /// Makes that number another, of at most `MAX_SEQ`.
    pub fn set(&mut self, site: Site, value: u32)
        requires site { site ≤ length self.old }
        requires small { value ≤ MAX_SEQ }
        ensures { self.new ≡ vector_set self.old site value }
    {
        self.numbers[site.place()] = value as u16;
    }

    /// Whether the other vector is at most this one in every place.
    pub fn covers(&self, other: &Vector) -> bool
        requires { length self.now ≡ length other.now }
        ensures { result ≡ vector_covers self.now other.now }
    {
        self.numbers()
            .iter()
            .zip(other.numbers())
            .all(|(own, others)| others <= own)
    }

    /// Whether the operation is known: false for a site past the size.
    pub fn has(&self, dot: Dot) -> bool
        ensures { result ≡ vector_has self.now dot }
    {
        dot.seq <= u32::from(self.numbers[dot.site.place()])
    }

    /// Takes the greater number in each place.
    pub fn join(&mut self, other: &Vector)
        requires { length self.old ≡ length other.now }
        ensures { self.new ≡ vector_join self.old other.now }
    {
        for i in 0..self.size as usize {
            self.numbers[i] = self.numbers[i].max(other.numbers[i]);
        }
    }

    /// Knows one more operation of the site.
    pub fn bump(&mut self, site: Site)
        requires site { site ≤ length self.old }
        requires below { vector_get self.old site < MAX_SEQ }
        ensures { self.new ≡ vector_bump self.old site }
    {
        self.numbers[site.place()] += 1;
    }

    /// How many operations are known.
    pub fn sum(&self) -> u32
        ensures { result ≡ sum self.now }
    {
        self.numbers().iter().map(|n| u32::from(*n)).sum()
    }
}
