ghost use Rattle.std.specs.Prelude.{◌≡◌, ◌≤◌, ◌++◌, ◌∷◌, [], ℕ, List, length, take, IfOk, OnOk, OnErr};
ghost use Rattle.td_journal.specs.Piece.{BeginsOpen};

use std::alloc::Global;
use std::marker::Model;
use td_base::Memory;

/// Records that are to be written together, in front of a closed gate. Contracts see the bytes of the records.
#[derive(Drop)]
pub(crate) struct Piece {
    items: Vec<u8>,
}

impl Model for Piece {
    ghost use Rattle.std.specs.Prelude.{◌-◌, ℕ, List, length, take};
    ghost use Rattle.td_journal.specs.Piece.{IsPieceParts};

    ghost Value = { List ℕ };

    ghost view = { λ p. take (length p.items.items - 1) p.items.items };

    ghost invariant = { λ p. IsPieceParts p.items.items };
}

impl Piece {
    /// No records.
    pub(crate) fn new(alloc: Global) -> Result<Piece, Memory>
        ensures { IfOk result (λ piece. piece ≡ []) }
    {
        let mut items = Vec::new(alloc);
        items.push(0)?;
        Ok(Piece { items })
    }

    /// How many bytes the records have.
    pub(crate) fn len(&self) -> usize
        ensures { result ≡ length self.now }
    {
        self.items.len() - 1
    }

    /// Adds a record.
    pub(crate) fn push(&mut self, bytes: &[u8]) -> Result<(), Memory>
        requires { BeginsOpen bytes.now }
        ensures ok { OnOk result (self.new ≡ self.old ++ bytes.now) }
        ensures memory { OnErr result (self.new ≡ self.old) }
    {
        let gate = self.items.len() - 1;
        self.items.extend_from_slice(bytes.split_at(1).1)?;
        if self.items.push(0).is_err() {
            self.items.truncate(gate + 1);
            return Err(Memory);
        }
        self.items[gate] = 1;
        Ok(())
    }

    /// Keeps the records that these first bytes are.
    pub(crate) fn truncate(&mut self, len: usize)
        requires { len ≤ length self.old }
        ensures { self.new ≡ take len self.old }
    {
        self.items.truncate(len + 1);
        self.items[len] = 0;
    }

    /// The records, and the closed gate behind them.
    #[tactic(auto, using(crate::proofs::Pieces::parts_of))]
    pub(crate) fn bytes(&self) -> &[u8]
        ensures { result.now ≡ self.now ++ 0 ∷ [] }
    {
        &self.items
    }
}
