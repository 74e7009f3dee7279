//! Cases of paths: what package paths lead to, what it costs to learn that, and what is asked of files.
use case_lines::{Answer, Trouble, as_text, one_text};
use make_cases::{Asking, FailingFiles, World, add_cost, failing_answer, given_name};
use mk_files::Content;
use mk_paths::{FilesFault, Settings};
use plain_reference::evaluate_path;
use port_index::{Finding, Row};
use read_trace::{Recorder, Reply, Trace, agrees};
use std::alloc::Global;

/// The call `finding PATH` of a case of paths: what a path leads to, what it costs to learn that, and each
/// name that is asked for, with the answer.
pub fn path_answer(alloc: Global, world: &mut World, given: &[Vec<u8>]) -> Result<Answer, Trouble> {
    let (found, trace) = recorded(alloc, world, one_text(given)?)?;
    let mut answer = Answer::of_word(alloc, row_word(&found.row));
    add_cost(&mut answer, found.cost);
    for question in trace.questions() {
        answer.text(question.name().as_str().as_bytes());
        answer.word(reply_word(question.reply()));
    }
    Ok(answer)
}

/// What a path leads to in a case of paths, with the trace of what was asked of the case's files.
fn recorded(alloc: Global, world: &mut World, path: &str) -> Result<(Finding, Trace), Trouble> {
    let World {
        files,
        settings,
        ..
    } = world;
    let mut recorder = Recorder::new(alloc, files, Trace::new(alloc));
    let found = evaluate_path(alloc, &mut recorder, settings, path)?;
    Ok((found, recorder.into_trace()))
}

/// The call `finding failing PATH` of a case of paths: what a path leads to, and what it costs to learn that,
/// in files that fail at each of their calls in turn. Before that, how many calls there are.
pub fn finding_failing(
    alloc: Global,
    world: &mut World,
    given: &[Vec<u8>],
) -> Result<Answer, Trouble> {
    let path = one_text(given)?;
    let World {
        files,
        settings,
        ..
    } = world;
    failing_answer(alloc, files, &mut FindingPath { settings, path })
}

/// A path of a case that leads to something in failing files.
#[derive(Drop)]
struct FindingPath<'a> {
    settings: &'a Settings,
    path: &'a str,
}

impl Asking for FindingPath<'_> {
    /// What the path of a case leads to over failing files, and what it costs to learn that.
    fn ask(
        &mut self,
        alloc: Global,
        files: &mut FailingFiles<'_>,
    ) -> Result<Result<Answer, Trouble>, FilesFault> {
        let found = evaluate_path(alloc, files, self.settings, self.path)?;
        let mut answer = Answer::of_word(alloc, row_word(&found.row));
        add_cost(&mut answer, found.cost);
        Ok(Ok(answer))
    }
}

/// The word for what a path leads to, as a case of paths shows it.
fn row_word(row: &Row) -> &'static str {
    match row {
        Row::Absent => "absent",
        Row::Faulty(_) => "faulty",
        Row::Port(_) => "port",
        Row::BadPort(_) => "badport",
        Row::Lists(_) => "lists",
        Row::BadList(_) => "badlist",
        Row::FlavoredList => "flavoredlist",
        Row::Other => "other",
    }
}

/// The word for the answer to a question about a file, as a case of paths shows it.
fn reply_word(reply: &Reply) -> &'static str {
    match reply {
        Reply::Presence(true) => "there",
        Reply::Presence(false) => "missing",
        Reply::Contents(Some(_)) => "read",
        Reply::Contents(None) => "absent",
    }
}

/// The calls `agrees PATH NAME BYTES`, `agrees PATH NAME` of a case of paths: whether the files answer what
/// was asked for the path as before, and how many answers are checked. By then they have the file NAME with
/// these bytes, or they don't have it.
pub fn agrees_answer(
    alloc: Global,
    world: &mut World,
    given: &[Vec<u8>],
) -> Result<Answer, Trouble> {
    let [path, name, bytes @ ..] = given else {
        return Err(Trouble::NoCase);
    };
    let (_found, trace) = recorded(alloc, world, as_text(path)?)?;
    let name = given_name(alloc, name)?;
    match bytes {
        [bytes] => {
            let content = Content::new(alloc, bytes.clone()?)?;
            world.files.put(name, content)?;
        }
        [] => {
            let _was_there = world.files.remove(&name);
        }
        _ => return Err(Trouble::NoCase),
    }
    let (is_same, checked) = agrees(&trace, &mut world.files)?;
    let mut answer = Answer::of_word(alloc, if is_same { "true" } else { "false" });
    answer.number(checked);
    Ok(answer)
}
