//! The answers of the plain reference: questions answered at once from files, and the effort for them.
ghost use Rattle.mk_paths.specs.FilesView.{view_world};
ghost use Rattle.plain_reference.specs.Work.{RepliesTo, TellsEffort, effort_for};
ghost use Rattle.plain_service.specs.Answers.{answer_to};
ghost use Rattle.plain_service.specs.Outcomes.{IfMade, Prepares};

use crate::effort::Effort;
use crate::index::index_files;
use crate::path_outcomes::outcome_of;
use mk_files::Listing;
use mk_paths::{FilesFault, Settings, find};
use plain_service::{PortQuestion, Prepared, Question, no_port};
use port_index::makefiles_are_evaluated;
use ports_http::Reply;
use std::alloc::Global;

/// The plain reference's answer to a question over the world of these files and settings, made at once: its
/// reply, and what is to be changed. It fails if the files fail, or if memory runs out.
pub fn answer<F: Listing>(
    alloc: Global,
    files: &mut F,
    settings: &Settings,
    question: Question,
) -> Result<Prepared, FilesFault>
    ensures { Prepares result (answer_to (view_world (F.view files.old) settings.now) question) }
{
    match question {
        Question::Settled(prepared) => Ok(prepared),
        Question::OfFile(asked) => {
            let content = files.read(asked.name())?;
            Ok(asked.answer(alloc, content)?)
        }
        Question::OfPort(asked) => {
            let (reply, _effort) = port_reply(alloc, files, settings, &asked)?;
            Ok(Prepared {
                reply,
                change: None,
            })
        }
        Question::OfIndex(asked) => {
            let index = index_files(alloc, files, settings)?;
            let reply = asked.reply(alloc, &index.known)?;
            Ok(Prepared {
                reply,
                change: None,
            })
        }
    }
}

/// The effort for the plain reference's answer to a question over the world of these files and settings. It
/// counts the makefiles, each once for each choice of flavors, and the units of their evaluations, with those
/// of the records, the SUBDIRs and the value.
///
/// A question about the index rests on the makefiles that items name too, also if its answer doesn't need
/// them. It fails if the files fail, or if memory runs out.
pub fn effort_for<F: Listing>(
    alloc: Global,
    files: &mut F,
    settings: &Settings,
    question: &Question,
) -> Result<Effort, FilesFault>
    ensures { IfMade result (effort_for (view_world (F.view files.old) settings.now) question.now) }
{
    match question {
        Question::Settled(_) | Question::OfFile(_) => Ok(Effort::nothing()),
        Question::OfPort(asked) => {
            let (_reply, effort) = port_reply(alloc, files, settings, asked)?;
            Ok(effort)
        }
        Question::OfIndex(_) => {
            makefiles_are_evaluated();
            let index = index_files(alloc, files, settings)?;
            Ok(index.effort)
        }
    }
}

/// The plain reference's reply to a question about a port, answered at once from files, and the effort for
/// it.
fn port_reply<F: Listing>(
    alloc: Global,
    files: &mut F,
    settings: &Settings,
    question: &PortQuestion,
) -> Result<(Reply, Effort), FilesFault>
    ensures reply { RepliesTo result (view_world (F.view files.old) settings.now) question.now }
    ensures effort { TellsEffort result (view_world (F.view files.old) settings.now) question.now }
{
    let path = question.path();
    let Some(makefile) = find(alloc, files, &settings.path, path.directory())? else {
        return Ok((no_port(alloc)?, Effort::nothing()));
    };
    let outcome = outcome_of(alloc, files, settings, &makefile, path.flavors())?;
    let (reply, units) = question.reply(alloc, &outcome, &makefile)?;
    let effort = Effort {
        evaluations: 1,
        units,
    };
    Ok((reply, effort))
}
