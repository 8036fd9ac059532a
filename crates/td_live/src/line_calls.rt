// The calls of one line, given one after another.
ghost use Rattle.std.specs.Prelude.{◌≡◌, ◌≤◌, ◌∷◌, List, [], length, MatchOption};
ghost use Rattle.td_script.specs.LiveScript.{calls};
ghost use Rattle.td_live.specs.declared.ask.Ask.{Ask};
ghost use Rattle.td_live.specs.declared.ask.Ask.TheVariants.{Plain};
ghost use Rattle.td_text.specs.Runs.{runs_of};
ghost use Rattle.td_live.specs.Asking.{asks_of, pasted, typed};
ghost use Rattle.td_live.specs.LineCalls.{asks_behind};

use crate::ask::Ask;
use std::marker::Model;
use td_base::Run;
use td_op::Request;
use td_report::proposal;
use td_script::EditorLine;
use td_text::OwnedAtoms;

/// The calls that are left of a line. Contracts see the list of these.
#[derive(Debug, Drop)]
pub(crate) struct LineCalls {
    // the next of them
    first: Option<Ask>,
    // and those behind it
    behind: Behind,
}

/// The calls behind the next one.
#[derive(Debug, Drop)]
pub(crate) enum Behind {
    /// None.
    Nothing,
    /// Each cluster is typed.
    Typing(OwnedAtoms),
    /// The atoms are pasted in runs, behind the run `before`.
    Pasting { before: Run, atoms: OwnedAtoms },
    /// So many deletes at the index.
    Deleting { index: u32, count: u32 },
}

impl Model for LineCalls {
    ghost use Rattle.std.specs.Prelude.{List};
    ghost use Rattle.td_live.specs.declared.ask.Ask.{Ask};
    ghost use Rattle.td_live.specs.declared.ask.Ask.TheVariants.{Plain};

    ghost Value = { List Ask };

    ghost use Rattle.td_live.specs.LineCalls.{asks_from};

    ghost view = { λ c. asks_from c.first c.behind };
}

impl LineCalls {
    /// No calls. Takes no memory.
    pub(crate) fn none() -> LineCalls
        ensures { result ≡ [] }
    {
        LineCalls {
            first: None,
            behind: Behind::Nothing,
        }
    }

    /// The calls that the line asks for. Takes no memory.
    pub(crate) fn of(line: EditorLine) -> LineCalls
        ensures asks { result ≡ asks_of line }
        ensures count { length (asks_of line) ≤ calls line }
    {
        match line {
            EditorLine::Ins { index, atoms } => LineCalls::typed(index, atoms.into_atoms()),
            EditorLine::Paste { index, atoms } => LineCalls::pasted(index, atoms.into_atoms()),
            EditorLine::Del { index, count } => {
                let mut behind = Behind::Deleting { index, count };
                let first = behind.next();
                LineCalls { first, behind }
            }
            EditorLine::Flat { place } => LineCalls::one(proposal(place)),
            EditorLine::Cancel { proposal } => LineCalls::one(Request::Cancel { proposal }),
            EditorLine::Look => LineCalls::none(),
        }
    }

    // One call.
    fn one(request: Request) -> LineCalls
        ensures { result ≡ Plain request ∷ [] }
    {
        LineCalls {
            first: Some(Ask::Plain(request)),
            behind: Behind::Nothing,
        }
    }

    // Each atom behind the one before, the first at the index.
    fn typed(index: u32, atoms: OwnedAtoms) -> LineCalls
        ensures { result ≡ typed index atoms }
    {
        let mut atoms = atoms;
        match atoms.next_atom() {
            None => LineCalls::none(),
            Some(atom) => LineCalls {
                first: Some(Ask::Plain(Request::Insert { index, atom })),
                behind: Behind::Typing(atoms),
            },
        }
    }

    // The atoms in runs, each behind the one before, the first at the index.
    fn pasted(index: u32, atoms: OwnedAtoms) -> LineCalls
        ensures { result ≡ pasted index (runs_of atoms) }
    {
        let mut atoms = atoms;
        match atoms.next_run() {
            None => LineCalls::none(),
            Some(run) => LineCalls {
                first: Some(Ask::Plain(Request::Paste { index, run })),
                behind: Behind::Pasting { before: run, atoms },
            },
        }
    }

    /// The next call, where one is left.
    pub(crate) fn first(&self) -> Option<Ask>
        ensures { MatchOption result (self.now ≡ []) (λ ask. (asks : List Ask) × (self.now ≡ ask ∷ asks)) }
    {
        self.first
    }

    /// Passes over the next call. It takes the same time however many calls are left, and no memory.
    pub(crate) fn pass(&mut self)
        ensures { (ask : Ask) (asks : List Ask) → self.old ≡ ask ∷ asks → self.new ≡ asks }
    {
        self.first = self.behind.next();
    }

    /// Passes over all that are left. Takes no memory.
    pub(crate) fn end(&mut self)
        ensures { self.new ≡ [] }
    {
        self.first = None;
    }
}

impl Behind {
    // Takes out the first of the calls.
    fn next(&mut self) -> Option<Ask>
        ensures { MatchOption result ((asks_behind self.old ≡ []) × (asks_behind self.new ≡ []))
            (λ ask. asks_behind self.old ≡ ask ∷ asks_behind self.new) }
    {
        match self {
            Behind::Nothing => None,
            Behind::Typing(atoms) => {
                let atom = atoms.next_atom()?;
                Some(Ask::TypeOn(atom))
            }
            Behind::Pasting { before, atoms } => {
                let run = atoms.next_run()?;
                let last = *before;
                *before = run;
                Some(Ask::PasteOn { before: last, run })
            }
            Behind::Deleting { index, count } => {
                if *count == 0 {
                    return None;
                }
                *count -= 1;
                Some(Ask::Plain(Request::Delete { index: *index }))
            }
        }
    }
}
