//! Blank lines of makefiles, which a machine skips at no cost.
ghost use Rattle.std.specs.Prelude.{◌≡◌, true, false};
ghost use Rattle.mk_ast.specs.Kinds.{BlankLine, line_kind};
ghost use Rattle.mk_ast.specs.Views.{tree_of};
ghost use Rattle.mk_step.specs.Costs.{TreeCosts, IsBlank};
ghost use Rattle.mk_step.specs.Steps.{AreAlikeFrom, CostsFrom};

use mk_ast::Node;
use mk_text::trim_blanks;

/// Whether a line of a makefile with this text is blank: it has nothing but blanks, and is no command.
fn is_blank_line(text: &str) -> bool
    ensures blank { result ≡ true → line_kind text.now ≡ BlankLine }
    ensures other { result ≡ false → line_kind text.now ≡ BlankLine → ⊥ }
{
    !text.starts_with('\t') && trim_blanks(text).is_empty()
}

/// Whether a node of a makefile's tree is a blank line.
fn is_blank(node: &Node) -> bool
    ensures blank { result ≡ true → IsBlank (tree_of node.now) }
    ensures other { result ≡ false → TreeCosts (tree_of node.now) }
{
    match node {
        Node::Line(line) => is_blank_line(line.text()),
        _ => false,
    }
}

/// Skips the blank lines of a block: the index of the first node, from this index on, that isn't one. If
/// there is none, it is how many nodes there are.
pub(crate) fn skip_blank_lines(nodes: &[Node], from: usize) -> usize
    ensures alike { AreAlikeFrom nodes.now from result }
    ensures costs { CostsFrom nodes.now result }
{
    for at in from..nodes.len() {
        if !is_blank(&nodes[at]) {
            return at;
        }
    }
    nodes.len()
}
