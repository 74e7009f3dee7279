//! The routes about one port, `/v1/var` and `/v1/port`, which are answered by the evaluation of its makefile.
ghost use Rattle.std.specs.Prelude.{◌≡◌, Ok, string_bytes};
ghost use Rattle.mk_eval.specs.declared.outcome.Kind.{Kind};
ghost use Rattle.port_rules.specs.Records.{record_of, record_units};
ghost use Rattle.plain_service.specs.Answers.{reply_after};
ghost use Rattle.plain_service.specs.PortReplies as replies;
ghost use Rattle.plain_service.specs.Questions as questions;
ghost use Rattle.plain_service.specs.Replies.{no_port as no_port_reply};
ghost use Rattle.plain_service.specs.AnswerCosts as costs;
ghost use Rattle.plain_service.specs.declared.port_routes.PortQuestion.TheVariants as asks;
ghost use Rattle.plain_service.specs.Subpackages.{has_named as has_named_in};
ghost use Rattle.plain_service.specs.Outcomes.{IfMade, TellsCost, TellsReply};

use crate::parameters::{parameter, path_in};
use crate::questions::Question;
use crate::replies::{faulty, port, refusal, variable};
use mk_base::PureStop;
use mk_eval::{Evaluated, Failed, Kind, Valued, value};
use mk_paths::Name;
use pkg_path::PkgPath;
use port_rules::{PortRecord, record};
use ports_http::{Reply, StatusCode};
use std::alloc::{AllocError, Global};
use std::marker::Model;

/// What a request asks of one port, by the evaluation of its makefile.
#[derive(Drop)]
pub enum PortQuestion {
    /// The value of a variable.
    Variable(VariableQuestion),
    /// What the port at this path is.
    Record(PkgPath),
}

/// The question about the variable that the query names, of the port whose path it gives. It is settled by the
/// refusal `Parameter` if `name` or `path` is missing, empty or there twice, and by `Path` if `path` is no package
/// path. It fails only if memory runs out.
pub fn variable_question(alloc: Global, query: &str) -> Result<Question, AllocError>
    ensures { IfMade result (questions.variable_question query.now) }
{
    let Some(name) = parameter(alloc, query, "name")? else {
        return Question::refused(alloc, StatusCode::BAD_REQUEST, "Parameter");
    };
    match path_in(alloc, query)? {
        Ok(path) => {
            let name = String::from_str(alloc, name.as_str())?;
            let asked = VariableQuestion::new(path, name);
            Ok(Question::OfPort(PortQuestion::Variable(asked)))
        }
        Err(refused) => Ok(Question::settled(refused)),
    }
}

/// The question about the port whose path the query gives. It is settled by the refusal `Parameter` if `path` is
/// missing, empty or there twice, and by `Path` if it is no package path. It fails only if memory runs out.
pub fn port_question(alloc: Global, query: &str) -> Result<Question, AllocError>
    ensures { IfMade result (questions.port_question query.now) }
{
    match path_in(alloc, query)? {
        Ok(path) => Ok(Question::OfPort(PortQuestion::Record(path))),
        Err(refused) => Ok(Question::settled(refused)),
    }
}

impl PortQuestion {
    /// The path of the port that the question is about.
    pub fn path(&self) -> &PkgPath
        ensures { result.now ≡ costs.path_asked self.now }
    {
        match self {
            PortQuestion::Variable(asked) => asked.path(),
            PortQuestion::Record(path) => path,
        }
    }

    /// The reply to the question about a port once its makefile is evaluated, and the units of the evaluation
    /// and of what is asked. If the evaluation ended with a fault, nothing more is spent. It fails only if
    /// memory runs out.
    pub fn reply(
        &self,
        alloc: Global,
        outcome: &Result<Evaluated, Failed>,
        makefile: &Name,
    ) -> Result<(Reply, u64), AllocError>
        ensures reply { TellsReply result (reply_after self.now makefile.now outcome.now) }
        ensures cost { TellsCost result (costs.cost_after self.now makefile.now outcome.now) }
    {
        let evaluated = match outcome {
            Ok(evaluated) => evaluated,
            Err(failed) => return Ok((faulty(alloc, &failed.fault)?, failed.cost)),
        };
        match self {
            PortQuestion::Variable(asked) => value_reply(alloc, evaluated, makefile, asked),
            PortQuestion::Record(path) => record_reply(alloc, evaluated, makefile, path),
        }
    }
}

/// The reply to a question about a port whose makefile isn't there: 404 `{"error":"NoPort"}`. It fails only
/// if memory runs out.
pub fn no_port(alloc: Global) -> Result<Reply, AllocError>
    ensures { IfMade result no_port_reply }
{
    refusal(alloc, StatusCode::NOT_FOUND, "NoPort")
}

/// The reply of `/v1/var` with the value of a variable of an evaluated makefile, and the units of both.
fn value_reply(
    alloc: Global,
    evaluated: &Evaluated,
    makefile: &Name,
    asked: &VariableQuestion,
) -> Result<(Reply, u64), AllocError>
    ensures reply { TellsReply result (reply_after (asks.Variable asked.now) makefile.now (Ok evaluated.now)) }
    ensures cost { TellsCost result (costs.cost_after (asks.Variable asked.now) makefile.now (Ok evaluated.now)) }
{
    let (reply, more) = match value(alloc, evaluated, makefile, asked.name()) {
        Ok(Some(known)) => (variable(alloc, Some(known.text()))?, known.cost()),
        Ok(None) => (variable(alloc, None)?, 0),
        Err(PureStop::Fault(failed)) => (faulty(alloc, &failed.fault)?, failed.cost),
        Err(PureStop::Memory(refused)) => return Err(refused.into()),
    };
    Ok((reply, evaluated.cost.saturating_add(more)))
}

/// The reply of `/v1/port` with the record of an evaluated makefile, if it describes a port, and the units of
/// both.
fn record_reply(
    alloc: Global,
    evaluated: &Evaluated,
    makefile: &Name,
    path: &PkgPath,
) -> Result<(Reply, u64), AllocError>
    ensures reply { TellsReply result (reply_after (asks.Record path.now) makefile.now (Ok evaluated.now)) }
    ensures cost { TellsCost result (costs.cost_after (asks.Record path.now) makefile.now (Ok evaluated.now)) }
{
    let (reply, more) = match evaluated.kind {
        Kind::Port => described(alloc, evaluated, makefile, path)?,
        Kind::List | Kind::Other => return Ok((no_port(alloc)?, evaluated.cost)),
    };
    Ok((reply, evaluated.cost.saturating_add(more)))
}

/// The reply of `/v1/port` with the record of a port, and the units of the record.
fn described(
    alloc: Global,
    evaluated: &Evaluated,
    makefile: &Name,
    path: &PkgPath,
) -> Result<(Reply, u64), AllocError>
    ensures reply { TellsReply result (replies.described evaluated.now makefile.now path.now) }
    ensures cost { TellsCost result (record_units (record_of evaluated.now.env makefile.now)) }
{
    match record(alloc, evaluated, makefile) {
        Ok(recorded) => Ok((port_reply(alloc, path, &recorded.port)?, recorded.cost)),
        Err(PureStop::Fault(failed)) => Ok((faulty(alloc, &failed.fault)?, failed.cost)),
        Err(PureStop::Memory(refused)) => Err(refused.into()),
    }
}

/// The reply of `/v1/port` with a port, which must have the subpackage, if its path names one.
fn port_reply(alloc: Global, path: &PkgPath, found: &PortRecord) -> Result<Reply, AllocError>
    ensures { IfMade result (replies.port_told path.now found.now) }
{
    if has_named(path, found) {
        port(alloc, path, found)
    } else {
        refusal(alloc, StatusCode::NOT_FOUND, "NoSubpackage")
    }
}

/// Whether a port has the package that the path in a question names, if it names one.
pub fn has_named(path: &PkgPath, port: &PortRecord) -> bool
    ensures { result ≡ has_named_in path.now.subpackage port.now }
{
    match path.subpackage() {
        Some(subpackage) => port.has_package(subpackage),
        None => true,
    }
}

/// A variable of the port at a path. The path's subpackage doesn't count.
#[derive(Debug, Drop)]
pub struct VariableQuestion {
    path: PkgPath,
    name: String,
}

impl Model for VariableQuestion {
    ghost use Rattle.std.specs.Prelude.{string_bytes};
    ghost use Rattle.plain_service.specs.Variables.{VariableValue};

    ghost Value = { VariableValue };

    ghost view = { λ question. record { path = question.path; name = string_bytes question.name } };
}

impl VariableQuestion {
    /// The question about this variable of the port at this path.
    fn new(path: PkgPath, name: String) -> VariableQuestion
        ensures { result ≡ record { path = path; name = string_bytes name } }
    {
        VariableQuestion { path, name }
    }

    /// The path of the port whose variable is asked for.
    pub fn path(&self) -> &PkgPath
        ensures { result.now ≡ self.now.path }
    {
        &self.path
    }

    /// The name of the variable that is asked for, which is taken as it is.
    pub fn name(&self) -> &str
        ensures { result.now ≡ self.now.name }
    {
        self.name.as_str()
    }
}
