// The limits of the program.
ghost use Rattle.std.specs.Prelude.{◌≡◌};
ghost use Rattle.td_base.specs.declared.site.TheConstants.{MAX_SITE};
ghost use Rattle.td_base.specs.declared.dot.TheConstants.{MAX_SEQ};
ghost use Rattle.td_base.specs.declared.atom.TheConstants.{MAX_ATOM_LEN};
ghost use Rattle.td_base.specs.declared.atom_id.TheConstants.{MAX_OFFSET};
ghost use Rattle.td_base.specs.declared.run.TheConstants.{MAX_RUN_LEN};
ghost use Rattle.td_script.specs.declared.number.TheConstants.{MAX_DIGITS};
ghost use Rattle.td_script.specs.declared.script.TheConstants.{MAX_SCRIPT, MAX_LINE, MAX_WIDE_SCRIPT};
ghost use Rattle.td_script.specs.declared.script.TheConstants.{MAX_WIDE_REQUESTS, MAX_MIDDLE_REQUESTS};
ghost use Rattle.td_gen.specs.declared.generator.TheConstants.{MAX_SIZE};
ghost use Rattle.td_reader.specs.declared.trace.TheConstants.{MAX_TRACE};

/// The constants that definitions and contracts name are these numbers: sites; operations of a site in its life; bytes
/// of an atom, bytes of a run, and the greatest offset in one; digits of a number; bytes of a script and of a line;
/// bytes and requests of a script of more than 16 sites, and requests of one of more than 8; the size of a generated
/// script; bytes of a trace.
pub fn the_limits_are_these()
    ensures sites { MAX_SITE ≡ 64 }
    ensures operations { MAX_SEQ ≡ 65535 }
    ensures atom { MAX_ATOM_LEN ≡ 64 }
    ensures run { MAX_RUN_LEN ≡ 64 }
    ensures offset { MAX_OFFSET ≡ 63 }
    ensures digits { MAX_DIGITS ≡ 9 }
    ensures script { MAX_SCRIPT ≡ 1048576 }
    ensures line { MAX_LINE ≡ 65536 }
    ensures wide { (MAX_WIDE_SCRIPT ≡ 32768) × (MAX_WIDE_REQUESTS ≡ 65535) }
    ensures middle { MAX_MIDDLE_REQUESTS ≡ 131072 }
    ensures generated { MAX_SIZE ≡ 50000 }
    ensures trace { MAX_TRACE ≡ 536870912 }
{}
