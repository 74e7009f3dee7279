//! The flavors of a port, read from its variables.
ghost use Rattle.std.specs.Prelude.{◌≡◌, map, string_bytes, IfOk};
ghost use Rattle.mk_base.specs.Stops.{GivesPurely};
ghost use Rattle.text_parts.specs.Cuts.{now_all};
ghost use Rattle.port_rules.specs.TextSets.{are_held};
ghost use Rattle.port_rules.specs.Flavors as flavors;

use crate::asked_variables::lowercase_words;
use crate::text_sets::TextSet;
use mk_base::{Budget, FaultKind, PureStop};
use mk_env::Env;
use std::alloc::{AllocError, Global};
use std::marker::Model;

/// The flavors of a port (bsd.port.mk(5), "FLAVORS AND MULTI_PACKAGES"), with their letters lowered, in
/// the order of their variables, with doubles.
#[derive(Debug, Drop)]
pub struct PortFlavors {
    chosen: Vec<String>,
    proper: Vec<String>,
    pseudo: Vec<String>,
}

impl Model for PortFlavors {
    ghost use Rattle.std.specs.Prelude.{map, string_bytes};
    ghost use Rattle.port_rules.specs.Flavors.{FlavorsValue};

    ghost Value = { FlavorsValue };

    ghost view = { λ f. record {
      chosen = map string_bytes f.chosen.items;
      proper = map string_bytes f.proper.items;
      pseudo = map string_bytes f.pseudo.items;
    } };
}

impl PortFlavors {
    /// The flavors of a port: those that are chosen, and those that the port has: the proper ones, and those
    /// that mark no name.
    pub fn new(chosen: Vec<String>, proper: Vec<String>, pseudo: Vec<String>) -> PortFlavors
        ensures { result ≡ flavors.flavors_with chosen.items proper.items pseudo.items }
    {
        PortFlavors {
            chosen,
            proper,
            pseudo,
        }
    }

    /// The flavors of the port that are chosen (FLAVOR).
    pub fn chosen(&self) -> &[String]
        ensures { map string_bytes result.now ≡ self.now.chosen }
    {
        self.chosen.as_slice()
    }

    /// The flavors that the port has and that mark the names of its packages (FLAVORS).
    pub fn proper(&self) -> &[String]
        ensures { map string_bytes result.now ≡ self.now.proper }
    {
        self.proper.as_slice()
    }

    /// The flavors that the port has and that mark no name (PSEUDO_FLAVORS).
    pub fn pseudo(&self) -> &[String]
        ensures { map string_bytes result.now ≡ self.now.pseudo }
    {
        self.pseudo.as_slice()
    }

    /// Whether the port has each of its flavors that is chosen.
    fn has_chosen(&self, alloc: Global) -> Result<bool, AllocError>
        ensures { IfOk result (λ has. has ≡ flavors.has_chosen self.now) }
    {
        let proper = TextSet::of(alloc, &self.proper)?;
        let pseudo = TextSet::of(alloc, &self.pseudo)?;
        Ok(are_known(&self.chosen, &proper, &pseudo))
    }

    /// The marks that the chosen flavors of a port put in the names of its packages.
    pub(crate) fn marks(&self, alloc: Global) -> Result<Vec<&str>, AllocError>
        ensures { IfOk result (λ marks. now_all marks.items ≡ flavors.flavor_marks self.now) }
    {
        let chosen = TextSet::of(alloc, &self.chosen)?;
        let mut marks = Vec::new(alloc);
        for flavor in &self.proper {
            if chosen.contains(flavor) {
                marks.push(flavor.as_str())?;
            }
        }
        Ok(marks)
    }
}

/// Whether each of these flavors is in one of two sets of flavors.
fn are_known<'a>(texts: &'a [String], one: &TextSet<'a>, other: &TextSet<'a>) -> bool
    ensures { result ≡ are_held one.now other.now texts.now }
{
    for text in texts {
        if !one.contains(text) && !other.contains(text) {
            return false;
        }
    }
    true
}

/// The flavors of a port that its variables give.
///
/// The faults of expanding FLAVOR, FLAVORS and PSEUDO_FLAVORS come first. Then it is `Flavor` if a
/// chosen flavor isn't one of the port's.
#[tactic(auto, unfolding(crate::specs::Flavors::flavors_read))]
pub(crate) fn read_flavors(
    alloc: Global,
    env: &Env,
    budget: &mut Budget,
) -> Result<PortFlavors, PureStop<FaultKind>>
    ensures { GivesPurely (λ x. x) result budget.new (flavors.flavors_read env.now budget.old) }
{
    let chosen = lowercase_words(alloc, env, "FLAVOR", budget)?;
    let proper = lowercase_words(alloc, env, "FLAVORS", budget)?;
    let pseudo = lowercase_words(alloc, env, "PSEUDO_FLAVORS", budget)?;
    let flavors = PortFlavors::new(chosen, proper, pseudo);
    if !flavors.has_chosen(alloc)? {
        return Err(PureStop::Fault(FaultKind::Flavor));
    }
    Ok(flavors)
}
