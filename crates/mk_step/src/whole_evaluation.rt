//! Whole evaluations of makefiles, from beginning to end.
ghost use Rattle.std.specs.Prelude.{◌+◌};
ghost use Rattle.mk_base.specs.declared.budget.TheConstants.{UNITS};
ghost use Rattle.mk_eval.specs.Outcome.{LeavesAsked, CostsAtMost};
ghost use Rattle.mk_step.specs.Turn.{TellsMeaning, asked_in, MeansIfDone, StartsAmong, HasSpent};

use crate::machine::{Machine, Turned};
use mk_base::{Stop, UNITS};
use mk_eval::{Anew, Evaluated, Failed, Parses};
use mk_files::Files;
use mk_paths::{FilesFault, Name, Settings};
use std::alloc::Global;

/// What the makefile of this name means in the world of these files and settings, evaluated with these
/// flavors or with none given, in a budget of 50,000 units. That is what it describes, its variables and
/// the units that it cost, or its first fault with the units that it cost up to there. Each file is
/// looked at, or asked about, when a line does so, in order. If the files keep a log, the log notes each
/// with its answer.
///
/// The evaluation begins with these variables: `.CURDIR`, the makefile's directory; `PORTSDIR`,
/// `/ports`; `PORTSDIR_PATH`, the trees of the settings with colons between them; `MACHINE_ARCH`,
/// `amd64`; and `LOCALBASE`, `/usr/local`. If flavors are given, it begins with `FLAVOR` too: the
/// flavors in the order of their bytes, each once, with blanks between them.
///
/// # Errors
///
/// Each fault has the file and the line where it arose. It is `Include` at line 0 if the
/// makefile isn't there.
///
/// For each file, before any of its lines is executed, it is `Utf8` at the line of the first bad
/// byte. Then it is `Block` for a block that doesn't end, a part without its block, or more than 64
/// nested blocks.
///
/// At a line that is executed, it is `Budget` if no unit is left. Then come, in a loop, the faults of
/// `mk_loop::put_words`. Then come those of `mk_cond::truth` for a condition, of `mk_loop::read_header`
/// for a `.for`, and of `mk_eval::perform` for any other line. If no unit is left for an iteration of a
/// loop, it is `Budget` at the line of the `.for`.
///
/// If a line asks for a file, faults are looked for in this order. `Include` if the line's text names
/// none in one of the forms. `IncludeDepth` if more than 16 files would include one another. `Include`
/// if a name in quotes is no file name. `Questions` for the 257th question, and then nothing is asked.
/// `Include` if the file is missing, and may not be.
///
/// If the files fail, their fault is returned as it is, as `Store` or `Memory`. It is also `Memory` if
/// memory runs out.
pub fn evaluate<F: Files>(
    alloc: Global,
    files: &mut F,
    settings: &Settings,
    name: &Name,
    flavors: Option<&[String]>,
) -> Result<Evaluated, Stop<Failed>>
    ensures means { TellsMeaning result (F.view files.old) settings.now name.now flavors.entry }
    ensures files { LeavesAsked F.fails_with (F.view files.old) (F.view files.new)
        (asked_in (F.view files.old) settings.now name.now flavors.entry) result }
    ensures within { CostsAtMost (λ evaluated. evaluated.cost) UNITS result }
{
    let mut parses = Anew::new(alloc);
    evaluate_with(alloc, &mut parses, files, settings, name, flavors)
}

/// The whole evaluation of a makefile as by `evaluate`, with trees that `parses` makes, or shares. Of
/// `parses` itself becomes only what may become of it by making trees.
///
/// # Errors
///
/// They are those of `evaluate`.
pub fn evaluate_with<F: Files, P: Parses>(
    alloc: Global,
    parses: &mut P,
    files: &mut F,
    settings: &Settings,
    name: &Name,
    flavors: Option<&[String]>,
) -> Result<Evaluated, Stop<Failed>>
    ensures means { TellsMeaning result (F.view files.old) settings.now name.now flavors.entry }
    ensures files { LeavesAsked F.fails_with (F.view files.old) (F.view files.new)
        (asked_in (F.view files.old) settings.now name.now flavors.entry) result }
    ensures within { CostsAtMost (λ evaluated. evaluated.cost) UNITS result }
    ensures parses { P.becomes parses.old parses.new }
{
    match in_one_turn(alloc, parses, files, settings, name, flavors) {
        Ok(Turned::Done(Ok(evaluated))) => Ok(evaluated),
        Ok(Turned::Done(Err(failed))) => Err(Stop::Fault(failed)),
        Ok(Turned::More(_)) => unreachable!(), // no evaluation spends that much
        Err(FilesFault::Store(refusal)) => Err(Stop::Store(refusal)),
        Err(FilesFault::Memory(refused)) => Err(Stop::Memory(refused)),
    }
}

/// The whole evaluation of a makefile by a machine, begun and turned once, with more units than it may spend.
fn in_one_turn<F: Files, P: Parses>(
    alloc: Global,
    parses: &mut P,
    files: &mut F,
    settings: &Settings,
    name: &Name,
    flavors: Option<&[String]>,
) -> Result<Turned, FilesFault>
    ensures means { MeansIfDone result (F.view files.old) settings.now name.now flavors.entry }
    ensures leaves { StartsAmong F.fails_with (F.view files.old) (F.view files.new)
        settings.now (name.now, flavors.entry) result }
    ensures spent { HasSpent (UNITS + 1) result }
    ensures parses { P.becomes parses.old parses.new }
{
    match Machine::start(alloc, settings, name, flavors, parses, files) {
        Ok(Turned::More(machine)) => machine.turn(alloc, parses, files, UNITS + 1),
        Ok(Turned::Done(answer)) => Ok(Turned::Done(answer)),
        Err(fault) => Err(fault),
    }
}
