//! The forms in which `.include` lines name files: `"f"`, or `<bsd.port.mk>` and other system files.
ghost use Rattle.std.specs.Prelude.{◌≡◌, ◌<◌, option_map};
ghost use Rattle.mk_eval.specs.Includes as includes;
ghost use Rattle.mk_eval.specs.FormViews.{shown_form};

use mk_text::trim_blanks;

/// What the text of an include names.
#[derive(Clone, Copy, Debug, PartialEq, Eq)]
pub(crate) enum Form<'a> {
    /// A file, `"f"`.
    Own(&'a str),
    /// `<bsd.port.mk>`
    Port,
    /// `<bsd.port.subdir.mk>`
    Subdir,
    /// Another `<bsd.*.mk>`.
    System,
    /// Nothing.
    Nothing,
}

/// The form in which this text of an include names a file, without the blanks around it.
pub(crate) fn form_of(text: &str) -> Form<'_>
    ensures { shown_form result ≡ includes.form_of text.now }
{
    let text = trim_blanks(text);
    match (enclosed(b'"', b'"', text), enclosed(b'<', b'>', text)) {
        (Some(file), _) => Form::Own(file),
        (None, Some(name)) => system_form(name),
        (None, None) => Form::Nothing,
    }
}

/// The form of an include that names the system file of this name, as `<bsd.port.mk>`.
fn system_form(name: &str) -> Form<'_>
    ensures { shown_form result ≡ includes.system_form name.now }
{
    match name {
        "bsd.port.mk" => Form::Port,
        "bsd.port.subdir.mk" => Form::Subdir,
        _ if is_system_name(name.as_bytes()) => Form::System,
        _ => Form::Nothing,
    }
}

/// Whether an include's name between `<` and `>` is that of a system file, `bsd.*.mk`.
fn is_system_name(name: &[u8]) -> bool
    ensures { result ≡ includes.is_system_name name.now }
{
    name.len() >= 7
        && &name[..4] == b"bsd.".as_slice()
        && &name[name.len() - 3..] == b".mk".as_slice()
}

/// The name of a file between these two bytes, with which the text of an include begins and ends; `None` if
/// it doesn't.
fn enclosed(first: u8, last: u8, text: &str) -> Option<&str>
    requires first { first < 128 }
    requires last { last < 128 }
    ensures { option_map (λ inside. inside.now) result ≡ includes.enclosed first last text.now }
{
    let bytes = text.as_bytes();
    if bytes.len() >= 2 && bytes[0] == first && bytes[bytes.len() - 1] == last {
        Some(&text[1..text.len() - 1])
    } else {
        None
    }
}
