//! Questions: what a request asks of a tenant's world.
ghost use Rattle.std.specs.Prelude.{◌≡◌};
ghost use Rattle.plain_service.specs.Questions as questions;
ghost use Rattle.plain_service.specs.Replies.{refusal as refusal_of};
ghost use Rattle.plain_service.specs.Outcomes.{IfMade};

use crate::change::Prepared;
use crate::file_route::FileQuestion;
use crate::index_questions::IndexQuestion;
use crate::port_routes::PortQuestion;
use crate::replies::refusal;
use ports_http::{Reply, StatusCode};
use std::alloc::{AllocError, Global};

/// What a request asks of a tenant's world, once its form was read: every refusal that doesn't depend on
/// the world is already made.
#[derive(Drop)]
pub enum Question {
    /// Nothing: the answer is the same over every world.
    Settled(Prepared),
    /// Something of one file.
    OfFile(FileQuestion),
    /// Something of one port, by the evaluation of its makefile.
    OfPort(PortQuestion),
    /// Something of all ports, by the index.
    OfIndex(IndexQuestion),
}

impl Question {
    /// The question of a request that is answered by this reply alone, over every world.
    pub(crate) fn settled(reply: Reply) -> Question
        ensures { result ≡ questions.refused_question reply }
    {
        Question::Settled(Prepared::reply_alone(reply))
    }

    /// The question of a request that is answered by a refusal, over every world.
    pub(crate) fn refused(
        alloc: Global,
        status: StatusCode,
        word: &str,
    ) -> Result<Question, AllocError>
        ensures { IfMade result (questions.refused_question (refusal_of status word.now)) }
    {
        Ok(Question::settled(refusal(alloc, status, word)?))
    }
}
