//! Texts cut at marks, texts put in order, and copies of texts. A text is cut in two, at the first mark after
//! which a certain text follows, or into parts, at every mark. Cuts are places in the text, and copy nothing.
#![tactic(auto)]

mod cuts;
mod laws;
mod order;
mod parts;

pub use cuts::cut_where;
pub use laws::{cut_is_its_text, parts_are_between, written_is_cut_again, written_parts_may_occur};
pub use order::put_in_order;
pub use parts::{clones_of, copies_of, split_at};
