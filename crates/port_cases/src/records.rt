//! Cases of records: what the port at a path is, by its makefile.
use case_lines::{Answer, Trouble, one_text};
use make_cases::{World, add_cost, evaluated, failure, makefile};
use mk_base::PureStop;
use mk_eval::Evaluated;
use pkg_path::PkgPath;
use port_rules::{Depend, Package, PortFlavors, PortRecord, record};
use std::alloc::Global;
use text_cases::{add_texts, path_of};

/// The call `record PATH` of a case of records: what the port at this path is, by the makefile, with its
/// cost; or its fault, or the makefile's.
pub fn record_answer(
    alloc: Global,
    world: &mut World,
    given: &[Vec<u8>],
) -> Result<Answer, Trouble> {
    let path = path_of(alloc, one_text(given)?)?.without_sub();
    match evaluated(alloc, world)? {
        Ok(evaluated) => port_answer(alloc, &path, &evaluated),
        Err(failed) => failure(alloc, &failed),
    }
}

/// Shows in a case of records what the port at a path is, with its cost, or the fault of its record.
fn port_answer(alloc: Global, path: &PkgPath, evaluated: &Evaluated) -> Result<Answer, Trouble> {
    match record(alloc, evaluated, &makefile(alloc)?) {
        Ok(recorded) => {
            let mut answer = Answer::new(alloc);
            answer.word("path");
            answer.text(path.canonical(alloc)?.as_bytes());
            add_port(alloc, &mut answer, &recorded.port);
            add_cost(&mut answer, recorded.cost);
            Ok(answer)
        }
        Err(PureStop::Fault(failed)) => failure(alloc, &failed),
        Err(PureStop::Memory(refused)) => Err(Trouble::Memory(refused)),
    }
}

/// Adds the record of a port to the answer of a case. Its parts that are empty are left out.
fn add_port(alloc: Global, answer: &mut Answer, port: &PortRecord) {
    add_flavors(answer, port.flavors());
    if !port.maintainer().is_empty() {
        answer.word("maintainer");
        answer.text(port.maintainer().as_bytes());
    }
    add_named(answer, "categories", port.categories());
    for package in port.packages() {
        add_package(alloc, answer, package);
    }
    for depend in port.depends() {
        add_depend(answer, depend);
    }
}

/// Adds the flavors of a port's record to the answer of a case: the chosen ones, the proper ones, and the
/// pseudo-flavors.
fn add_flavors(answer: &mut Answer, flavors: &PortFlavors) {
    add_named(answer, "flavor", flavors.chosen());
    add_named(answer, "flavors", flavors.proper());
    add_named(answer, "pseudo", flavors.pseudo());
}

/// Adds texts of a port's record to the answer of a case, after a word. If there are no texts, the word isn't
/// added either.
fn add_named(answer: &mut Answer, word: &str, texts: &[String]) {
    if !texts.is_empty() {
        answer.word(word);
        add_texts(answer, texts);
    }
}

/// Adds a package of a port's record to the answer of a case: its subpackage, name and comment.
fn add_package(alloc: Global, answer: &mut Answer, package: &Package) {
    answer.word("package");
    answer.text(package.subpackage().as_bytes());
    answer.word("name");
    answer.printed(alloc, package.name());
    answer.word("comment");
    answer.text(package.comment().as_bytes());
}

/// Adds a dependency of a port's record to the answer of a case: its kind, its subpackage and its item.
fn add_depend(answer: &mut Answer, depend: &Depend) {
    answer.word(depend.kind().as_str());
    answer.word("of");
    answer.text(depend.subpackage().as_bytes());
    answer.word("item");
    answer.text(depend.item().as_bytes());
}
