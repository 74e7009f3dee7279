//! Texts that an expansion joins or copies, within the limit of a text.
ghost use Rattle.std.specs.Prelude.{◌≡◌, ◌==◌, ◌++◌, string_bytes, IfErr, IsTrue};
ghost use Rattle.std.specs.List.{list_any};
ghost use Rattle.mk_base.specs.Meter.{Meter};
ghost use Rattle.mk_base.specs.Stops.{GivesPurely};
ghost use Rattle.mk_env.specs.Expansion.{bounded};
ghost use Rattle.mk_env.specs.ExpansionResults.{AddsBounded, MeansItself};
ghost use Rattle.mk_env.specs.Refusals.{IsTooLong};

use mk_base::{FaultKind, PureStop};
use mk_text::{TEXT_LIMIT, TextFault, add_text};
use std::alloc::Global;

/// Adds a text to the end of what an expansion has joined. If the whole is then too long, that is the fault
/// `Length`.
pub(crate) fn push_bounded(joined: &mut String, text: &str) -> Result<(), PureStop<FaultKind>>
    ensures ok { AddsBounded result joined.old joined.new text.now }
    ensures err { IfErr result (IsTooLong (string_bytes joined.old ++ text.now)) }
{
    match add_text(joined, text) {
        Ok(()) => Ok(()),
        Err(TextFault::Length) => Err(PureStop::Fault(FaultKind::Length)),
        Err(TextFault::Memory(refused)) => Err(PureStop::Memory(refused)),
    }
}

/// A copy of a text that an expansion leaves as it is. If the text is too long, that is the fault `Length`.
pub(crate) fn copy_bounded(alloc: Global, text: &str) -> Result<String, PureStop<FaultKind>>
    ensures gives { (m : Meter) → GivesPurely string_bytes result m (bounded text.now m) }
{
    if text.len() > TEXT_LIMIT {
        return Err(PureStop::Fault(FaultKind::Length));
    }
    Ok(String::from_str(alloc, text)?)
}

/// Whether a text expands to itself, as is seen at once: it has no dollar, and isn't too long.
pub(crate) fn means_itself(text: &str) -> bool
    ensures { IsTrue result → MeansItself text.now }
{
    !has_dollar(text) && text.len() <= TEXT_LIMIT
}

/// Whether there is a dollar in a text that is to be expanded. A text without one has no reference and means
/// itself.
pub(crate) fn has_dollar(text: &str) -> bool
    ensures { result ≡ list_any (λ b. b == 36) text.now }
{
    text.as_bytes().iter().any(|byte| *byte == b'$')
}
