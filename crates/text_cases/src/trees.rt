//! Cases of trees: the tree of a makefile's blocks and lines, as a case shows it.
use case_lines::{Answer, Trouble};
use mk_ast::{Node, ParseError, ParseFault, parse};
use mk_text::Logical;
use std::alloc::{AllocError, Global};
use std::fmt::Write;

/// The call `tree MAKEFILE` of a case of trees: the makefile's nodes in order with semicolons between them;
/// or its fault. A line is `line N` by its number, a choice is `if N {..} elif N {..} else {..}`, a loop is
/// `for N {..}`.
pub fn tree_of(alloc: Global, given: &[Vec<u8>]) -> Result<Answer, Trouble> {
    let [bytes] = given else {
        return Err(Trouble::NoCase);
    };
    let shown = match parse(alloc, bytes) {
        Ok(makefile) => shown_block(alloc, &makefile.nodes)?,
        Err(ParseError::Fault(ParseFault { kind, line })) => {
            format!(in alloc; "{kind:?} at {line}")?
        }
        Err(ParseError::Memory(refused)) => return Err(Trouble::Memory(refused)),
    };
    Ok(Answer::of_word(alloc, shown.as_str()))
}

/// The nodes of a block in a makefile's tree, as a case of trees shows them.
fn shown_block(alloc: Global, nodes: &[Node]) -> Result<String, AllocError> {
    let mut out = String::new(alloc);
    show_block(&mut out, nodes)?;
    Ok(out)
}

/// Shows the nodes of a block in a makefile's tree in a case, with semicolons between them.
#[cycle(show)]
fn show_block(out: &mut String, nodes: &[Node]) -> Result<(), AllocError> {
    let mut first = true;
    for node in nodes {
        if !first {
            out.push_str("; ")?;
        }
        first = false;
        show_node(out, node)?;
    }
    Ok(())
}

/// Shows a node of a makefile's tree in a case: a line, a choice or a loop.
#[cycle(show)]
fn show_node(out: &mut String, node: &Node) -> Result<(), AllocError> {
    match node {
        Node::Line(line) => {
            let number = line.line();
            write!(out, "line {number}")
        }
        Node::Choice {
            head,
            body,
            branches,
            otherwise,
        } => {
            show_frame(out, "if", head)?;
            show_block(out, body)?;
            for branch in branches.as_slice() {
                out.push_str("} el")?;
                show_frame(out, "if", &branch.head)?;
                show_block(out, &branch.body)?;
            }
            if let Some(last) = otherwise {
                out.push_str("} else {")?;
                show_block(out, last)?;
            }
            out.push_str("}")
        }
        Node::Loop { head, body } => {
            show_frame(out, "for", head)?;
            show_block(out, body)?;
            out.push_str("}")
        }
    }
}

/// Shows the beginning of a block in a makefile's tree in a case: its word, the number of its line, and a
/// brace.
fn show_frame(out: &mut String, word: &str, head: &Logical) -> Result<(), AllocError> {
    let number = head.line();
    write!(out, "{word} {number} {{")
}
