// The answers of all sites, put in the order of the editors.
ghost use Rattle.std.specs.Prelude.{◌≡◌, ◌<◌, ◌≤◌, ◌-◌, ◌++◌, length, map, IfOk, OnOk};
ghost use Rattle.td_line.specs.Editors.{EditorValue};
ghost use Rattle.td_room.specs.Ending.{gathered, CanGather};

use crate::answers::{Answers, SiteAnswers};
use std::alloc::Global;
use td_base::{Memory, Site};
use td_line::Editor;

// The site of each editor.
pub(crate) fn homes_of(alloc: Global, editors: &[Editor]) -> Result<Vec<Site>, Memory>
    ensures { IfOk result (λ homes. homes.items ≡ map (λ (e : EditorValue). e.home) editors.now) }
{
    let mut homes = Vec::new(alloc);
    for editor in editors {
        homes.push(editor.home())?;
    }
    Ok(homes)
}

// For each editor, of which these are the homes, the first answers that are left of its site.
pub(crate) fn gather(
    alloc: Global,
    homes: Vec<Site>,
    sites: Vec<SiteAnswers>,
) -> Result<Vec<Answers>, Memory>
    requires { CanGather homes.items sites.items }
    ensures { IfOk result (λ all. all.items ≡ gathered homes.items sites.items) }
{
    let mut homes = homes;
    let mut sites = sites;
    let mut all = Vec::new(alloc);
    while homes.len() > 0 {
        gather_next(&mut homes, &mut sites, &mut all)?;
    }
    Ok(all)
}

fn gather_next(
    homes: &mut Vec<Site>,
    sites: &mut Vec<SiteAnswers>,
    all: &mut Vec<Answers>,
) -> Result<(), Memory>
    requires some { 0 < length homes.old.items }
    requires can { CanGather homes.old.items sites.old.items }
    ensures can { OnOk result (CanGather homes.new.items sites.new.items) }
    ensures all { OnOk result (all.new.items ++ gathered homes.new.items sites.new.items
        ≡ all.old.items ++ gathered homes.old.items sites.old.items) }
    ensures fewer { length homes.new.items < length homes.old.items }
{
    let home = homes.remove(0);
    let place = home.place();
    let site = &mut sites[place];
    let answers = site.take_first();
    all.push(answers)?;
    Ok(())
}
