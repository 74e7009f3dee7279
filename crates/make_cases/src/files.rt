//! Cases of files: their names, search paths, and what worlds of files have.
use case_lines::{Answer, Trouble, as_number, as_text, one_text};
use mk_base::{Budget, FaultKind, Stop, UNITS};
use mk_files::{Content, Files, Listing, MemoryFiles, ask_has, ask_read, look_has, look_read};
use mk_paths::{Name, NameFault, Names, PathFault, SearchPath, find};
use std::alloc::Global;
use text_cases::add_texts;

/// The calls `name TEXT`, `name under DIRECTORY TEXT` of a case of files: the resolved name of a file, or why
/// there is none.
pub fn name_of(alloc: Global, given: &[Vec<u8>]) -> Result<Answer, Trouble> {
    let read = match given {
        [text] => Name::read(alloc, as_text(text)?),
        [directory, text] => Name::under(alloc, as_text(directory)?, as_text(text)?),
        _ => return Err(Trouble::NoCase),
    };
    match read {
        Ok(name) => Ok(name_answer(alloc, name)),
        Err(NameFault::BadName) => Ok(Answer::of_word(alloc, "BadName")),
        Err(NameFault::Above) => Ok(Answer::of_word(alloc, "Above")),
        Err(NameFault::Memory(refused)) => Err(Trouble::Memory(refused)),
    }
}

/// Shows the name of a file in a case of files, and `lost` if its text is empty.
fn name_answer(alloc: Global, name: Name) -> Answer {
    let mut answer = Answer::of_text(alloc, name.as_str());
    if name.into_text().as_bytes().is_empty() {
        answer.word("lost");
    }
    answer
}

/// The call `directory of NAME` of a case of files: the directory that a file is in.
pub fn directory_of(alloc: Global, given: &[Vec<u8>]) -> Result<Answer, Trouble> {
    let [name] = given else {
        return Err(Trouble::NoCase);
    };
    let name = given_name(alloc, name)?;
    Ok(Answer::of_text(alloc, name.directory()))
}

/// The call `search path TEXT` of a case of files: the trees of the search path, or `BadPath`.
pub fn trees_of(alloc: Global, given: &[Vec<u8>]) -> Result<Answer, Trouble> {
    match SearchPath::read(alloc, one_text(given)?) {
        Ok(path) => Ok(trees_answer(alloc, &path)),
        Err(PathFault::BadPath) => Ok(Answer::of_word(alloc, "BadPath")),
        Err(PathFault::Memory(refused)) => Err(Trouble::Memory(refused)),
    }
}

/// The call `standard search path` of a case of files: the trees of the standard search path.
pub fn standard_trees(alloc: Global) -> Result<Answer, Trouble> {
    Ok(trees_answer(alloc, &SearchPath::standard(alloc)?))
}

/// The trees of a search path as the answer of a case of files.
pub fn trees_answer(alloc: Global, path: &SearchPath) -> Answer {
    let mut answer = Answer::new(alloc);
    for tree in path.trees() {
        answer.text(tree.as_bytes());
    }
    answer
}

/// The name of a file that a case gives as a text. It is `NoCase` if the text is no name.
pub fn given_name(alloc: Global, text: &[u8]) -> Result<Name, Trouble> {
    Name::read(alloc, as_text(text)?).map_err(|fault| match fault {
        NameFault::Memory(refused) => Trouble::Memory(refused),
        _ => Trouble::NoCase,
    })
}

/// The line `put NAME BYTES` of a case of files: stores a file in the files of the case.
pub fn put(alloc: Global, world: &mut MemoryFiles, given: &[Vec<u8>]) -> Result<(), Trouble> {
    let [name, bytes] = given else {
        return Err(Trouble::NoCase);
    };
    let content = Content::new(alloc, bytes.clone()?)?;
    world.put(given_name(alloc, name)?, content.share()?)?;
    Ok(())
}

/// The call `names` of a case of files: the names of all files.
pub fn names(alloc: Global, files: &mut MemoryFiles) -> Result<Answer, Trouble> {
    let mut answer = Answer::new(alloc);
    add_texts(&mut answer, &files.names(alloc)?);
    Ok(answer)
}

/// The call `remove NAME` of a case of files: removes a file, and gives `removed` or `absent`.
pub fn remove(
    alloc: Global,
    world: &mut MemoryFiles,
    given: &[Vec<u8>],
) -> Result<Answer, Trouble> {
    let [name] = given else {
        return Err(Trouble::NoCase);
    };
    let removed = world.remove(&given_name(alloc, name)?);
    Ok(Answer::of_choice(alloc, removed, "removed", "absent"))
}

/// The call `read NAME` of a case of files: the bytes of a file, or `absent`. Every way of asking gives the
/// same.
pub fn read(alloc: Global, world: &mut MemoryFiles, given: &[Vec<u8>]) -> Result<Answer, Trouble> {
    let [name] = given else {
        return Err(Trouble::NoCase);
    };
    let name = given_name(alloc, name)?;
    let is_there = is_there(world, &name)?;
    let read = world.read(&name)?;
    let seen = look_read::<MemoryFiles, FaultKind>(world, &name).map_err(trouble_of)?;
    Ok(match (read, seen) {
        (Some(read), Some(seen)) if is_there == Some(true) => {
            two_answer(alloc, read.as_slice(), seen.as_slice())
        },
        (None, None) if is_there == Some(false) => Answer::of_word(alloc, "absent"),
        _ => Answer::of_word(alloc, "both"),
    })
}

/// What kept a question of a case from being asked of its files.
fn trouble_of(stop: Stop<FaultKind>) -> Trouble {
    match stop {
        Stop::Memory(refused) => Trouble::Memory(refused),
        Stop::Fault(_) | Stop::Store(_) => Trouble::NoCase,
    }
}

/// Whether the files of a case have a file. `None` if two ways of asking give different answers.
fn is_there(world: &mut MemoryFiles, name: &Name) -> Result<Option<bool>, Trouble> {
    let has = world.has(name)?;
    let is_held = world.get(name).is_some();
    match look_has::<MemoryFiles, FaultKind>(world, name) {
        Ok(seen) if seen == has && is_held == has => Ok(Some(has)),
        Ok(_) => Ok(None),
        Err(stop) => Err(trouble_of(stop)),
    }
}

/// The bytes of a file as the answer of a case, and its bytes by another way of asking if they aren't the
/// same.
pub fn two_answer(alloc: Global, one: &[u8], other: &[u8]) -> Answer {
    let mut answer = Answer::new(alloc);
    answer.text(one);
    if one != other {
        answer.text(other);
    }
    answer
}

/// The budget of a case of files that asks them a question: so many questions are counted already.
fn asked(count: &[u8]) -> Result<Budget, Trouble> {
    let mut budget = Budget::new(UNITS);
    for _ in 0..as_number(count)? {
        budget.ask().map_err(|_| Trouble::NoCase)?;
    }
    Ok(budget)
}

/// The call `ask has NAME after N` of a case of files: after N questions were counted, `there` or `absent`,
/// or the kind of the fault, and how many questions are counted then.
pub fn ask_has_answer(
    alloc: Global,
    world: &mut MemoryFiles,
    given: &[Vec<u8>],
) -> Result<Answer, Trouble> {
    let [name, count] = given else {
        return Err(Trouble::NoCase);
    };
    let mut budget = asked(count)?;
    let mut answer = Answer::new(alloc);
    match ask_has(world, &given_name(alloc, name)?, &mut budget) {
        Ok(true) => answer.word("there"),
        Ok(false) => answer.word("absent"),
        Err(stop) => answer.stop(stop),
    }
    answer.number(budget.questions());
    Ok(answer)
}

/// The call `ask read NAME after N` of a case of files: after N questions were counted, the bytes of a file
/// or `absent`, or the kind of the fault, and how many questions are counted then.
pub fn ask_read_answer(
    alloc: Global,
    world: &mut MemoryFiles,
    given: &[Vec<u8>],
) -> Result<Answer, Trouble> {
    let [name, count] = given else {
        return Err(Trouble::NoCase);
    };
    let mut budget = asked(count)?;
    let mut answer = Answer::new(alloc);
    match ask_read(world, &given_name(alloc, name)?, &mut budget) {
        Ok(Some(content)) => answer.text(content.as_slice()),
        Ok(None) => answer.word("absent"),
        Err(stop) => answer.stop(stop),
    }
    answer.number(budget.questions());
    Ok(answer)
}

/// The call `place of DIRECTORY on PATH` of a case of files: the makefile of a directory on a search path, or
/// `none`.
pub fn place(alloc: Global, world: &mut MemoryFiles, given: &[Vec<u8>]) -> Result<Answer, Trouble> {
    let [directory, path] = given else {
        return Err(Trouble::NoCase);
    };
    let path = given_path(alloc, path)?;
    Ok(match find(alloc, world, &path, as_text(directory)?)? {
        Some(name) => Answer::of_text(alloc, name.as_str()),
        None => Answer::of_word(alloc, "none"),
    })
}

/// The search path that a case of files gives as a text. It is `NoCase` if the text is no search path.
pub fn given_path(alloc: Global, text: &[u8]) -> Result<SearchPath, Trouble> {
    SearchPath::read(alloc, as_text(text)?).map_err(|fault| match fault {
        PathFault::Memory(refused) => Trouble::Memory(refused),
        PathFault::BadPath => Trouble::NoCase,
    })
}
