ghost use Rattle.std.specs.Prelude.{◌≡◌, ◌<◌, ◌≤◌, ◌+◌, ◌-◌, ◌||◌, ◌&&◌, not, ℕ, [], length};
ghost use Rattle.std.specs.Prelude.{IfOk, IfErr, IfSome, OnOk, OnErr, Some, None, if◌then◌else◌, slice_get, option_copied};
ghost use Rattle.std.specs.Prelude.{take};
ghost use Rattle.std.specs.List.{list_any};
ghost use Rattle.std.specs.Int.{bit_at};
ghost use Rattle.td_base.specs.Lists.{kth};
ghost use Rattle.td_base.specs.Value.{DotValue};
ghost use Rattle.td_base.specs.declared.site.TheConstants.{MAX_SITE};
ghost use Rattle.td_clock.specs.Vector.{vector_has};
ghost use Rattle.td_doc.specs.Document.{live_rows};
ghost use Rattle.td_marks.specs.Index.{HaveAll, ops_at, passes};
ghost use Rattle.td_marks.specs.Making.{live_ids_at, made_op, mark_refusal, refusal_told};
ghost use Rattle.td_marks.specs.Mark.{MarkOpValue, adds, removes, has_name, names_of};
ghost use Rattle.td_marks.specs.Marks.{IsMarkOp, IsMarks, count_of, next_dot, with_op};
ghost use Rattle.td_marks.specs.Taking.{take_answer, after_take, after_takes};

use crate::index::Index;
use crate::mark_fault::MarkFault;
use crate::mark_op::{MAX_ATOMS, MarkOp, NAMES};
use crate::mark_taken::MarkTaken;
use std::alloc::Global;
use std::marker::Model;
use td_base::{AtomId, Dot, Memory, Site};
use td_clock::Vector;
use td_doc::Doc;

/// The marks that a site has: the operations on marks made or taken there, of each site without gaps. They need no
/// causal order between sites. Only `mark` and `take` take memory.
#[derive(Debug, Drop)]
pub struct Marks {
    site: Site,
    have: Vector,
    ops: Vec<MarkOp>,
    index: Index,
    alloc: Global,
}

impl Model for Marks {
    ghost use Rattle.std.specs.Prelude.{length};
    ghost use Rattle.td_marks.specs.Marks.{MarksValue};
    ghost use Rattle.td_marks.specs.MarksParts.{AreMarksParts};

    ghost Value = { MarksValue };

    ghost view = { λ m. record { site = m.site; size = length m.have; ops = m.ops.items } };

    ghost invariant = { λ m. AreMarksParts m.site m.have m.ops.items m.index };
}

impl Marks {
    /// No operations, at this site of n. Takes no memory.
    pub fn new(alloc: Global, site: Site, n: u8) -> Marks
        requires some { 1 ≤ n }
        requires few { n ≤ MAX_SITE }
        requires site { site ≤ n }
        ensures { result ≡ record { site = site; size = n; ops = [] } }
    {
        let _ = site.number(); // which tells its range
        Marks {
            site,
            have: Vector::new(n),
            ops: Vec::new(alloc),
            index: Index::new(alloc),
            alloc,
        }
    }

    /// Adds the name to so many live atoms from an index on, or removes it from them: makes the operation, and answers
    /// its dot.
    pub fn mark<D: Doc>(
        &mut self,
        doc: &D,
        add: bool,
        name: u8,
        index: u32,
        count: u32,
    ) -> Result<Dot, MarkFault>
        requires { name < NAMES }
        ensures allowed { OnOk result
            (mark_refusal (length (live_rows (D.rows doc.now))) (count_of self.old.site self.old.ops) index count
            ≡ None) }
        ensures dot { IfOk result (λ dot. dot ≡ next_dot self.old.site self.old.ops) }
        ensures made { OnOk result (self.new
            ≡ with_op (made_op self.old add name (live_ids_at (D.rows doc.now) index count)) self.old) }
        ensures fault { IfErr result (λ fault.
            mark_refusal (length (live_rows (D.rows doc.now))) (count_of self.old.site self.old.ops) index count
            ≡ refusal_told fault) }
        ensures err { OnErr result (self.new ≡ self.old) }
    {
        let dot = self.judge(doc.live(), index, count)?;
        let atoms = live_atoms(self.alloc, doc, index, index + count)?;
        self.keep(MarkOp {
            dot,
            seen: self.have,
            add,
            name,
            atoms,
        })?;
        Ok(dot)
    }

    /// Takes an operation of another site, where it is the next of its site.
    pub fn take(&mut self, op: &MarkOp) -> Result<MarkTaken, Memory>
        requires name { op.now.name < NAMES }
        requires some { 1 ≤ length op.now.atoms }
        requires few { length op.now.atoms ≤ MAX_ATOMS }
        ensures answer { IfOk result (λ answer. answer ≡ take_answer self.old op.now) }
        ensures kept { IfOk result (λ answer. self.new ≡ after_take answer op.now self.old) }
        ensures err { OnErr result (self.new ≡ self.old) }
    {
        let answer = self.answer(op);
        if let MarkTaken::New = answer {
            self.keep(op.copied(self.alloc)?)?;
        }
        Ok(answer)
    }

    /// Takes all operations that another site has, in the order in which they came there, and answers how many were
    /// new. After `Memory` those from the first on up to one are taken.
    pub fn meet(&mut self, other: &Marks) -> Result<u32, Memory>
        ensures met { OnOk result (self.new ≡ after_takes other.now.ops self.old) }
        ensures taken { IfOk result (λ taken. taken + length self.old.ops ≡ length self.new.ops) }
        ensures err { OnErr result ((k : ℕ) × (self.new ≡ after_takes (take k other.now.ops) self.old)) }
    {
        let before = self.ops();
        for place in 0..other.ops() {
            self.take_kth(other, place + 1)?;
        }
        Ok(self.ops() - before)
    }

    // Takes the k-th operation of another site, from 1.
    fn take_kth(&mut self, other: &Marks, k: u32) -> Result<(), Memory>
        requires some { 1 ≤ k }
        requires within { k ≤ length other.now.ops }
        ensures ok { (o : MarkOpValue) → kth k other.now.ops ≡ Some o
            → OnOk result (self.new ≡ after_take (take_answer self.old o) o self.old) }
        ensures err { OnErr result (self.new ≡ self.old) }
    {
        if let Some(op) = other.op(k) {
            self.take(op)?;
        }
        Ok(())
    }

    /// The names that the atom has: bit m is set where it has the name m.
    pub fn names(&self, id: AtomId) -> u32
        ensures names { result ≡ names_of self.now.ops id }
        ensures bits { (m : ℕ) → m < NAMES → bit_at result m ≡ (if has_name self.now.ops id m then 1 else 0) }
    {
        let numbers = self.index.numbers(id);
        let mut names = 0;
        for name in 0..NAMES {
            if self.has_name(numbers, id, name) {
                names |= 1 << name;
            }
        }
        names
    }

    /// How many operations are had.
    pub fn ops(&self) -> u32
        ensures ops { result ≡ length self.now.ops }
        ensures marks { IsMarks self.now }
    {
        self.have.sum()
    }

    /// The k-th operation that was made or taken, from 1.
    pub fn op(&self, k: u32) -> Option<&MarkOp>
        ensures op { option_copied result ≡ kth k self.now.ops }
        ensures fit { IfSome result (λ o. IsMarkOp self.now.size o.now) }
    {
        if k == 0 {
            return None;
        }
        self.ops.get(k as usize - 1)
    }

    // The dot of an operation that is to be made of these atoms, where it may be.
    fn judge(&self, live: u32, index: u32, count: u32) -> Result<Dot, MarkFault>
        ensures ok { OnOk result (mark_refusal live (count_of self.now.site self.now.ops) index count ≡ None) }
        ensures dot { IfOk result (λ dot. dot ≡ next_dot self.now.site self.now.ops) }
        ensures fault { IfErr result (λ fault.
            mark_refusal live (count_of self.now.site self.now.ops) index count ≡ Some fault) }
    {
        if count == 0 || u64::from(index) + u64::from(count) > u64::from(live) {
            return Err(MarkFault::Position { len: live });
        }
        if count > MAX_ATOMS {
            return Err(MarkFault::Wide { count });
        }
        let made = self.have.get(self.site);
        match Dot::new(self.site, made + 1) {
            Some(dot) => Ok(dot),
            None => Err(MarkFault::Limit { made }),
        }
    }

    // What becomes of the operation.
    fn answer(&self, op: &MarkOp) -> MarkTaken
        ensures { result ≡ take_answer self.now op.now }
    {
        let dot = op.dot();
        let Dot { site, seq } = dot;
        if op.seen.size() != self.have.size() || site.number() > self.have.size() {
            return MarkTaken::Size;
        }
        if self.have.has(dot) {
            return MarkTaken::Repeat;
        }
        let want = self.have.get(site) + 1;
        if seq > want {
            return MarkTaken::Gap { want };
        }
        MarkTaken::New
    }

    // Adds the operation, which is the next of its site.
    fn keep(&mut self, op: MarkOp) -> Result<(), Memory>
        requires op { IsMarkOp self.old.size op }
        requires next { op.dot ≡ next_dot op.dot.site self.old.ops }
        ensures ok { OnOk result (self.new ≡ with_op op self.old) }
        ensures err { OnErr result (self.new ≡ self.old) }
    {
        let dot = op.dot();
        let number = self.have.sum();
        self.index.add_all(op.named(), number)?;
        self.ops.push(op)?;
        self.have.bump(dot.site);
        Ok(())
    }

    // Whether the atom has the name; the operations that name the atom are among those with these numbers.
    fn has_name(&self, numbers: &[u32], id: AtomId, name: u8) -> bool
        requires { HaveAll self.now.ops id numbers.now }
        ensures { result ≡ has_name self.now.ops id name }
    {
        let _ = &self.site;
        let removed = self.removed(numbers, id, name);
        numbers
            .iter()
            .any(|number| self.stands(*number, id, name, &removed))
    }

    // What the removals of the name from the atom had seen, of those with these numbers.
    fn removed(&self, numbers: &[u32], id: AtomId, name: u8) -> Vector
        ensures { (d : DotValue) → 1 ≤ d.seq
            → vector_has result d ≡ list_any (removes id name d) (ops_at self.now.ops numbers.now) }
    {
        let mut removed = Vector::new(self.have.size());
        for number in numbers {
            self.join_removal(&mut removed, *number, id, name);
        }
        removed
    }

    // Joins what the operation had seen, where it removes the name from the atom.
    fn join_removal(&self, removed: &mut Vector, number: u32, id: AtomId, name: u8)
        requires size { length removed.old ≡ self.now.size }
        ensures size { length removed.new ≡ self.now.size }
        ensures dots { (d : DotValue) → vector_has removed.new d
            ≡ (vector_has removed.old d || passes (removes id name d) (slice_get self.now.ops number)) }
    {
        let Some(op) = self.ops.get(number as usize) else {
            return;
        };
        if !op.add && op.is_about(id, name) {
            removed.join(&op.seen);
        }
    }

    // Whether the operation adds the name to the atom, and is not among those removed.
    fn stands(&self, number: u32, id: AtomId, name: u8, removed: &Vector) -> bool
        ensures { result ≡ passes (λ a. adds id name a && not (vector_has removed.now a.dot))
            (slice_get self.now.ops number) }
    {
        match self.ops.get(number as usize) {
            Some(op) => op.add && op.is_about(id, name) && !removed.has(op.dot),
            None => false,
        }
    }
}

// The identities of the live atoms with indices from one up to another, as far as there are such.
fn live_atoms<D: Doc>(alloc: Global, doc: &D, from: u32, to: u32) -> Result<Vec<AtomId>, Memory>
    requires { from ≤ to }
    ensures { IfOk result (λ atoms. atoms.items ≡ live_ids_at (D.rows doc.now) from (to - from)) }
{
    let mut atoms = Vec::new(alloc);
    for index in from..to {
        if let Some(id) = doc.live_at(index) {
            atoms.push(id)?;
        }
    }
    Ok(atoms)
}
