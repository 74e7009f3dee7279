//! JSON texts as they are written: objects of numbers and texts, an object with one member, a list, and an object of
//! any members.
ghost use Rattle.std.specs.Prelude.{[], IfOk, OnOk};
ghost use Rattle.serde_json.specs.Data.{object};
ghost use Rattle.plain_service.specs.JsonText.{AddsValue, HasItems, HasMembers, members_of, scalar_value};
ghost use Rattle.plain_service.specs.Outcomes.{EndsList, EndsMembers};

use json::Writer;
use std::alloc::{AllocError, Global};

/// A number or a text, as a member of a JSON object.
#[derive(Clone, Copy)]
pub enum Scalar<'a> {
    /// This number.
    Number(u64),
    /// This text.
    Text(&'a str),
}

/// Writes a JSON object with these members. It fails only if memory runs out.
pub fn write_object(out: &mut Writer, members: &[(&str, Scalar<'_>)]) -> Result<(), AllocError>
    ensures { OnOk result (AddsValue out.old out.new (object (members_of members.now))) }
{
    out.begin_object()?;
    for (name, value) in members {
        out.key(name)?;
        write_scalar(out, *value)?;
    }
    out.end_object()
}

/// Writes the number or the text that a member of a JSON object is.
fn write_scalar(out: &mut Writer, value: Scalar<'_>) -> Result<(), AllocError>
    ensures { OnOk result (AddsValue out.old out.new (scalar_value value.entry)) }
{
    match value {
        Scalar::Number(number) => out.u64(number),
        Scalar::Text(text) => out.string(text),
    }
}

/// Begins the JSON text of an object whose one member, of this name, is a list. It fails only if memory runs
/// out.
pub fn begin_list(alloc: Global, name: &str) -> Result<Writer, AllocError>
    ensures { IfOk result (λ out. HasItems out name.now []) }
{
    let mut out = Writer::new(Vec::new(alloc));
    out.begin_object()?;
    out.key(name)?;
    out.begin_array()?;
    Ok(out)
}

/// Ends the JSON object that `begin_list` began, and gives the whole text. It fails only if memory runs out.
pub fn end_list(mut out: Writer) -> Result<Vec<u8>, AllocError>
    ensures { EndsList out result }
{
    out.end_array()?;
    out.end_object()?;
    Ok(out.into_inner())
}

/// Begins the JSON text of an object of any members. It fails only if memory runs out.
pub fn begin_members(alloc: Global) -> Result<Writer, AllocError>
    ensures { IfOk result (λ out. HasMembers out []) }
{
    let mut out = Writer::new(Vec::new(alloc));
    out.begin_object()?;
    Ok(out)
}

/// Ends the JSON object that `begin_members` began, and gives the whole text. It fails only if memory runs
/// out.
pub fn end_members(mut out: Writer) -> Result<Vec<u8>, AllocError>
    ensures { EndsMembers out result }
{
    out.end_object()?;
    Ok(out.into_inner())
}
