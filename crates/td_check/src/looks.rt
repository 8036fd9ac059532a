// The looks of a trace, and which of them are true.
ghost use Rattle.std.specs.Prelude.{◌≡◌, ◌↔◌, ◌+◌, ◌<◌, ℕ, List, false, length, IfOk, IsTrue, MatchOption, OnOk, Some};
ghost use Rattle.std.specs.Prelude.{option_map, slice_get};
ghost use Rattle.td_base.specs.Lists.{In};
ghost use Rattle.td_trace.specs.declared.log.EditorLog.{EditorLog};
ghost use Rattle.td_reader.specs.Values.{TraceValue};
ghost use Rattle.td_check.specs.Looks.{AreDue, AreDueBefore, AreFound, AreLooks, IsLookAt, TellsText};
ghost use Rattle.td_check.specs.Looks.{is_found, noted_at, one_more, places_at};
ghost use Rattle.td_check.specs.declared.looks.Spot.{Spot};

use std::alloc::Global;
use std::collections::{BTreeMap, BTreeSet};
use td_base::{Memory, Site};
use td_reader::{ReadDid, ReadTrace};

// Which text a look is at: that of a site, behind so many of its entries.
#[derive(Clone, Copy, Debug, PartialEq, Eq, PartialOrd, Ord)]
struct Spot {
    site: Site,
    upto: u64,
}

// Where a trace tells what was done: of which editor and which of its deeds, both from 0.
#[derive(Clone, Copy, Debug, PartialEq, Eq, PartialOrd, Ord)]
struct Place {
    editor: u32,
    index: u32,
}

/// The looks of a trace, and which of them were found true so far.
#[derive(Debug, Drop)]
pub(crate) struct Looks {
    due: BTreeMap<Spot, Vec<Place>>,
    found: BTreeSet<Place>,
}

impl Looks {
    /// The looks of the trace, none of them found true yet.
    pub(crate) fn of(alloc: Global, trace: &ReadTrace<'_>) -> Result<Looks, Memory>
        ensures { IfOk result (λ looks. (text_at : ℕ → ℕ → List ℕ) → AreLooks trace.now (λ site. 0) text_at looks) }
    {
        Ok(Looks {
            due: due_of(alloc, trace)?,
            found: BTreeSet::new(alloc),
        })
    }

    /// Whether a look is at the text of the site behind so many entries.
    pub(crate) fn is_due(&self, site: Site, upto: u32) -> bool
        ensures { result ≡ false → (t : TraceValue) (seen : ℕ → ℕ) (text_at : ℕ → ℕ → List ℕ)
            → AreLooks t seen text_at self.now → seen site ≡ upto → AreLooks t (one_more site seen) text_at self.now }
    {
        let upto = u64::from(upto);
        self.due.contains_key(&Spot { site, upto })
    }

    /// The next text of the site, behind so many entries: the looks at it are found true whose text it is.
    pub(crate) fn see(
        &mut self,
        trace: &ReadTrace<'_>,
        site: Site,
        upto: u32,
        text: &[u8],
    ) -> Result<(), Memory>
        ensures { OnOk result ((seen : ℕ → ℕ) (text_at : ℕ → ℕ → List ℕ) → AreLooks trace.now seen text_at self.old
            → seen site ≡ upto → text.now ≡ text_at site upto
            → AreLooks trace.now (one_more site seen) text_at self.new) }
    {
        let upto = u64::from(upto);
        let Some(places) = self.due.get(&Spot { site, upto }) else {
            return Ok(());
        };
        find_told(&mut self.found, trace, places, text)
    }

    /// Whether the look at this place, of which editor and which of its deeds from 0, was found true.
    pub(crate) fn is_true(&self, editor: u32, index: u32) -> bool
        ensures { result ≡ is_found self.now.found (record { editor = editor; index = index }) }
    {
        self.found.contains(&Place { editor, index })
    }
}

// Adds those of the places whose looks have this text.
fn find_told(
    found: &mut BTreeSet<Place>,
    trace: &ReadTrace<'_>,
    places: &[Place],
    text: &[u8],
) -> Result<(), Memory>
    ensures { OnOk result (AreFound trace.now text.now places.now found.old found.new) }
{
    for place in places {
        if is_told(trace, *place, text) {
            found.insert(*place)?;
        }
    }
    Ok(())
}

// Whether a look with this text is told at the place.
fn is_told(trace: &ReadTrace<'_>, place: Place, text: &[u8]) -> bool
    ensures { IsTrue result ↔ TellsText trace.now place text.now }
{
    match trace.did(place.editor, place.index) {
        Some(ReadDid::Look { text: told, .. }) => told.is(text),
        _ => false,
    }
}

// The looks of the trace under their spots.
fn due_of(alloc: Global, trace: &ReadTrace<'_>) -> Result<BTreeMap<Spot, Vec<Place>>, Memory>
    ensures { IfOk result (AreDue trace.now) }
{
    let mut due = BTreeMap::new(alloc);
    for editor in 0..trace.editors() {
        note_editor(&mut due, alloc, trace, editor)?;
    }
    Ok(due)
}

// Puts the looks of the editor under their spots.
fn note_editor(
    due: &mut BTreeMap<Spot, Vec<Place>>,
    alloc: Global,
    trace: &ReadTrace<'_>,
    editor: u32,
) -> Result<(), Memory>
    ensures { OnOk result (AreDueBefore trace.now editor 0 due.old → AreDueBefore trace.now (editor + 1) 0 due.new) }
{
    let Some(site) = trace.home(editor) else {
        return Ok(());
    };
    for index in 0..trace.dids(editor) {
        let place = Place { editor, index };
        if let Some(spot) = spot_of(trace, site, place) {
            note(due, alloc, spot, place)?;
        }
    }
    Ok(())
}

// The spot of the look that is told at the place, where one is; the editor's site is this.
fn spot_of(trace: &ReadTrace<'_>, site: Site, place: Place) -> Option<Spot>
    requires { option_map (λ (log : EditorLog). log.home) (slice_get trace.now.logs place.editor) ≡ Some site }
    ensures { MatchOption result ((spot : Spot) (text : List ℕ) → ¬ IsLookAt trace.now place spot text)
        (λ spot. (text : List ℕ) × IsLookAt trace.now place spot text) }
{
    match trace.did(place.editor, place.index) {
        Some(ReadDid::Look { upto, .. }) => Some(Spot { site, upto }),
        _ => None,
    }
}

// Puts the place under its spot.
fn note(
    due: &mut BTreeMap<Spot, Vec<Place>>,
    alloc: Global,
    spot: Spot,
    place: Place,
) -> Result<(), Memory>
    ensures { OnOk result ((other : Spot)
        → places_at due.new other ≡ noted_at spot place other (places_at due.old other)) }
{
    due.entry(spot)?.or_insert(Vec::new(alloc)).push(place)?;
    Ok(())
}
