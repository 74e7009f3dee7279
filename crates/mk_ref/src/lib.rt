//! A text of the make language cut into literals, `$$` pairs and references, as places in the text.
#![tactic(auto)]

mod ends;
mod laws;
mod opening;
mod outside_text;
mod pieces_of_text;

pub use laws::{
    atoms_are_text, cut_goes_on, dollars_alone_part_texts, insides_are_cut_alone,
    only_the_unclosed_is_left, outside_keeps_places, parts_are_whole, pieces_are_atoms,
    read_goes_on, reads_to_the_first_mark, references_are_put_together,
};
pub use opening::{Opening, opening_at};
pub use outside_text::outside;
pub use pieces_of_text::{Piece, PiecesFault, Reference, pieces};
