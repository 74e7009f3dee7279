//! Texts put in the order of their bytes, each once.
ghost use Rattle.std.specs.Prelude.{◌≡◌, map};
ghost use Rattle.std.specs.String.{string_bytes};
ghost use Rattle.text_parts.specs.Order.{in_order};

/// Puts a list of texts in the order of their bytes, each once.
pub fn put_in_order(texts: &mut Vec<String>)
    ensures { map string_bytes texts.new.items ≡ in_order (map string_bytes texts.old.items) }
{
    texts.sort_unstable();
    texts.dedup();
}
