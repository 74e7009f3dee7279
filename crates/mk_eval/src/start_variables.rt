//! The start variables, with which the evaluation of a makefile begins: `.CURDIR`, PORTSDIR, FLAVOR and
//! others.
ghost use Rattle.std.specs.Prelude.{map, string_bytes, codes};
ghost use Rattle.mk_eval.specs.Start as starts;
ghost use Rattle.mk_eval.specs.Start.{Starts, JoinsTo};
ghost use Rattle.mk_eval.specs.Views.{flavors_in};

use mk_env::Env;
use mk_paths::{Name, Settings};
use std::alloc::{AllocError, Global};
use text_parts::{clones_of, put_in_order};

/// The start variables: those with which the evaluation of the named makefile begins, with these flavors or
/// with none given.
pub fn start(
    alloc: Global,
    settings: &Settings,
    makefile: &Name,
    flavors: Option<&[String]>,
) -> Result<Env, AllocError>
    ensures { Starts result (starts.start settings.now makefile.now (flavors_in flavors.entry)) }
{
    let variables = unflavored_start(alloc, settings, makefile)?;
    match flavors {
        Some(flavors) => with_flavors(alloc, variables, flavors),
        None => Ok(variables),
    }
}

/// The start variables of the evaluation of a makefile if no flavors are given: `.CURDIR`, PORTSDIR,
/// PORTSDIR_PATH, MACHINE_ARCH and LOCALBASE.
fn unflavored_start(alloc: Global, settings: &Settings, makefile: &Name) -> Result<Env, AllocError>
    ensures { Starts result (starts.unflavored_start settings.now makefile.now) }
{
    let mut variables = Env::new(alloc, settings.profile);
    variables.set(".CURDIR", makefile.directory())?;
    variables.set("PORTSDIR", "/ports")?;
    let trees = trees_text(alloc, settings)?;
    variables.set("PORTSDIR_PATH", trees.as_str())?;
    variables.set("MACHINE_ARCH", "amd64")?;
    variables.set("LOCALBASE", "/usr/local")?;
    Ok(variables)
}

/// The start variables of an evaluation with FLAVOR added, which has these flavors.
fn with_flavors(alloc: Global, mut variables: Env, flavors: &[String]) -> Result<Env, AllocError>
    ensures { Starts result (starts.with_flavors variables (map string_bytes flavors.now)) }
{
    let text = flavor_text(alloc, flavors)?;
    variables.set("FLAVOR", text.as_str())?;
    Ok(variables)
}

/// The value of PORTSDIR_PATH in the start variables: the trees of the search path, with colons between them.
fn trees_text(alloc: Global, settings: &Settings) -> Result<String, AllocError>
    ensures { JoinsTo result (starts.between (codes ":") settings.now.path) }
{
    settings.path.trees().join(alloc, ":")
}

/// The value of FLAVOR in the start variables: the flavors in the order of their bytes, each once, with
/// spaces between them.
fn flavor_text(alloc: Global, flavors: &[String]) -> Result<String, AllocError>
    ensures { JoinsTo result (starts.flavors_text (map string_bytes flavors.now)) }
{
    let mut texts = clones_of(alloc, flavors)?;
    put_in_order(&mut texts);
    texts.as_slice().join(alloc, " ")
}
