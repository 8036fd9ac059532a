ghost use Rattle.std.specs.Prelude.{◌≡◌, ◌≤◌, ◌*◌, IfOk};
ghost use Rattle.td_gen.specs.Generator.{edit_at};
ghost use Rattle.td_gen.specs.declared.generator.TheConstants.{MAX_SIZE};

use crate::letters::letters_from;
use std::alloc::Global;
use td_base::{Memory, Site};
use td_script::Command;

/// The greatest number of letters of an insert.
pub(crate) const MAX_LETTERS: u32 = 8;

/// An edit, and how many atoms the text of its site has at least then.
#[derive(Debug, Drop)]
pub(crate) struct Edit {
    pub command: Command,
    pub least: u32,
}

/// The edit that two words ask for at a site whose text has at least so many atoms.
pub(crate) fn edit_at(alloc: Global, site: Site, least: u32, a: u32, b: u32) -> Result<Edit, Memory>
    requires { least ≤ MAX_LETTERS * MAX_SIZE }
    ensures { IfOk result (λ done. done ≡ edit_at site least a b) }
{
    let kind = a % 8;
    if kind >= 6 && least > 0 {
        return Ok(Edit {
            command: Command::Del {
                site,
                index: b % least,
                count: 1,
            },
            least: least - 1,
        });
    }
    let count = if kind == 5 { MAX_LETTERS } else { 1 };
    let atoms = letters_from(alloc, a / 8 % 26, count)?;
    Ok(Edit {
        command: Command::Ins {
            site,
            index: b % (least + 1),
            atoms,
        },
        least: least + count,
    })
}
