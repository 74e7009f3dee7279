//! The items of a port: its dependencies as the makefile writes them.
ghost use Rattle.std.specs.Prelude.{◌≡◌, map, IfOk};
ghost use Rattle.std.specs.Option.{option_copied};
ghost use Rattle.port_deps.specs.Items as items;

use crate::item_text::read_wanted;
use crate::wanted::Wanted;
use port_rules::{Depend, DependKind, PortRecord};
use std::alloc::{AllocError, Global};
use std::marker::Model;

/// An item of BUILD_DEPENDS, LIB_DEPENDS, RUN_DEPENDS or TEST_DEPENDS (bsd.port.mk(5)).
#[derive(Debug, Drop)]
pub struct Item {
    pub(crate) kind: DependKind,
    pub(crate) subpackage: String,
    pub(crate) text: String,
    pub(crate) wanted: Option<Wanted>,
}

impl Model for Item {
    ghost use Rattle.std.specs.Prelude.{string_bytes};
    ghost use Rattle.port_deps.specs.Items.{ItemValue};

    ghost Value = { ItemValue };

    ghost view = { λ i. record { kind = i.kind; subpackage = string_bytes i.subpackage; text = string_bytes i.text; wanted = i.wanted } };
}

impl Item {
    /// The item of a dependency, read from the dependency's text.
    fn of(alloc: Global, depend: &Depend) -> Result<Item, AllocError>
        ensures { IfOk result (λ item. item ≡ items.item_of depend.now) }
    {
        Ok(Item {
            kind: depend.kind(),
            subpackage: String::from_str(alloc, depend.subpackage())?,
            text: String::from_str(alloc, depend.item())?,
            wanted: read_wanted(alloc, depend.item())?,
        })
    }

    /// The kind of the item: what the port needs it for.
    pub fn kind(&self) -> DependKind
        ensures { result ≡ self.now.kind }
    {
        self.kind
    }

    /// The package of the port that needs the item, with its dash; empty if it is the port as a whole, to be
    /// built or tested.
    pub fn subpackage(&self) -> &str
        ensures { result.now ≡ self.now.subpackage }
    {
        self.subpackage.as_str()
    }

    /// The text of the item, as it is written.
    pub fn text(&self) -> &str
        ensures { result.now ≡ self.now.text }
    {
        self.text.as_str()
    }

    /// What the item asks for; `None` if its text can't be read.
    pub fn wanted(&self) -> Option<&Wanted>
        ensures { option_copied result ≡ self.now.wanted }
    {
        self.wanted.as_ref()
    }
}

/// The items of a port's record, in the order of its dependencies.
///
/// An item is `[pkgspec:]pkgpath[:target]`. Empty parts that come first are dropped. If there are two
/// parts, the first is a spec if it has no slash, or has `*` or `|`. A path ends before its first `<`,
/// `>` or `=`, and what begins there are the versions that will do, of any stem. Without a spec any
/// package will do.
///
/// An item can't be read if it has no part or more than three, or if it has a spec and versions after
/// its path. It can't be read either if its path is no path, or its spec no spec. Then it says nothing
/// of what it asks for. The call fails only if memory runs out.
pub fn items(alloc: Global, port: &PortRecord) -> Result<Vec<Item>, AllocError>
    ensures { IfOk result (λ found. found.items ≡ map items.item_of port.now.depends) }
{
    let mut found = Vec::new(alloc);
    for depend in port.depends() {
        found.push(Item::of(alloc, depend)?)?;
    }
    Ok(found)
}
