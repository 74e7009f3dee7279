//! Modifiers of references, read and applied, with the faults of an expansion.
ghost use Rattle.std.specs.Prelude.{IfErr};
ghost use Rattle.mk_mods.specs.Actions.{action_of, IsExpanded};
ghost use Rattle.mk_mods.specs.Applied.{applied};
ghost use Rattle.mk_mods.specs.Views.{ReadsModifiers};
ghost use Rattle.mk_mods.specs.Made.{MakesValue, value_replaced};
ghost use Rattle.mk_env.specs.Expansion.{actions_of};
ghost use Rattle.mk_env.specs.Mentions.{lent_text};
ghost use Rattle.mk_env.specs.Refusals.{IsUnread, StopsUnmade};

use mk_base::{FaultKind, PureStop};
use mk_mods::{Modifier, Mods, ModsFault, Substitution, apply, substitute};
use mk_text::{Profile, TextFault};
use std::alloc::Global;

/// The modifiers that follow the colon of a reference that is expanded, read in this profile; none if it has
/// no colon. If they can't be read, that is the fault `Modifier`.
pub(crate) fn read_modifiers(
    alloc: Global,
    text: Option<&str>,
    profile: Profile,
) -> Result<Vec<Modifier>, PureStop<FaultKind>>
    ensures ok { ReadsModifiers result (actions_of profile (lent_text text.entry)) }
    ensures err { IfErr result (IsUnread (actions_of profile (lent_text text.entry))) }
{
    let Some(text) = text else {
        return Ok(Vec::new(alloc));
    };
    match Mods::read(alloc, text, profile) {
        Ok(mods) => Ok(mods.modifiers),
        Err(ModsFault::BadMod) => Err(PureStop::Fault(FaultKind::Modifier)),
        Err(ModsFault::Memory(refused)) => Err(PureStop::Memory(refused)),
    }
}

/// What a modifier whose references are expanded makes of a value. If the result is too long, that is the
/// fault `Length`.
pub(crate) fn apply_expanded(
    alloc: Global,
    modifier: &Modifier,
    value: &str,
) -> Result<String, PureStop<FaultKind>>
    requires { IsExpanded (action_of modifier.now) }
    ensures ok { MakesValue result (applied (action_of modifier.now) value.now) }
    ensures err { StopsUnmade result (applied (action_of modifier.now) value.now) }
{
    match apply(alloc, modifier, value) {
        Ok(made) => Ok(made),
        Err(TextFault::Length) => Err(PureStop::Fault(FaultKind::Length)),
        Err(TextFault::Memory(refused)) => Err(PureStop::Memory(refused)),
    }
}

/// What a substitution (`:S`) with these expanded texts makes of a value. If the result is too long, that is
/// the fault `Length`.
pub(crate) fn apply_substitution(
    alloc: Global,
    substitution: &Substitution,
    old: &str,
    new: &str,
    value: &str,
) -> Result<String, PureStop<FaultKind>>
    ensures ok { MakesValue result (value_replaced substitution.now old.now new.now value.now) }
    ensures err { StopsUnmade result (value_replaced substitution.now old.now new.now value.now) }
{
    match substitute(alloc, substitution, old, new, value) {
        Ok(made) => Ok(made),
        Err(TextFault::Length) => Err(PureStop::Fault(FaultKind::Length)),
        Err(TextFault::Memory(refused)) => Err(PureStop::Memory(refused)),
    }
}
