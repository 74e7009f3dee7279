//! The command line of the program: what its words ask for.
ghost use Rattle.std.specs.Prelude.{◌≡◌, IfOk, map, false, string_bytes};
ghost use Rattle.clap.specs.Words.{FailsBy, app_of, fault_of, found_of, rows_of, rule_of};
ghost use Rattle.portsd_run.specs.CommandLine.{AsksFor, GivesConfig, GivesServing, keys_argument, port_argument, portsd};
ghost use Rattle.portsd_run.specs.CommandLine.{replay, serve, size_argument, turns_argument};

use clap::{Arg, ArgAction, ArgMatches, Command, Error};
use ports_core::Config;
use std::alloc::{AllocError, Global};
use text_parts::copies_of;

/// The most parses, and the most evaluations, that the command line may ask to be kept.
const MOST_KEPT: u32 = 65_536;

/// The greatest port that the command line may name.
const LAST_PORT: u16 = 65_535;

/// The most rounds that the command line may ask for.
const MOST_ROUNDS: u32 = 4_294_967_295;

/// How many parses, and how many evaluations, are kept if the command line doesn't say.
const PARSES: u32 = 256;

const EVALS: u32 = 1_024;

/// What the program's command line asks for.
#[derive(Debug, Drop)]
pub enum Invocation {
    /// A run of the script on standard input, over a service that begins with this config.
    Replay(Config),
    /// A service for clients.
    Serve(Serving),
}

/// What the command line `portsd serve` asks for: a service for clients.
#[derive(Debug, Drop)]
pub struct Serving {
    /// Where it listens, on 127.0.0.1.
    pub port: u16,
    /// How many rounds it serves.
    pub rounds: u32,
    /// What the service begins with.
    pub config: Config,
}

/// What the program's command line asks for. Its first word is the program's name. The error has the text for
/// the terminal: a fault of usage, help, or that memory ran out.
pub fn read_command(alloc: Global, words: &[String]) -> Result<Invocation, Error>
    ensures read { IfOk result (AsksFor (map string_bytes words.now)) }
    ensures fails { FailsBy (fault_of portsd (map string_bytes words.now)) result }
{
    let matches = portsd_command(alloc)?.try_get_matches_from(words)?;
    match matches.subcommand() {
        Some((name, given)) if name == "serve" => Ok(Invocation::Serve(serving_given(
            alloc, given,
        )?)),
        Some((_, given)) => Ok(Invocation::Replay(config_given(alloc, given)?)),
        None => Ok(Invocation::Replay(Config {
            keys: Vec::new(alloc),
            parses: PARSES,
            evals: EVALS,
        })),
    }
}

/// What the command line gives to `portsd serve`: a port, a number of rounds, and a config.
fn serving_given(alloc: Global, given: &ArgMatches<'_>) -> Result<Serving, AllocError>
    ensures { IfOk result (GivesServing (rows_of (found_of given.now))) }
{
    Ok(Serving {
        port: given.get_one::<u16>("port").unwrap_or(1),
        rounds: given.get_one::<u32>("turns").unwrap_or(1),
        config: config_given(alloc, given)?,
    })
}

/// The config, keys and sizes, that the command line gives to a subcommand.
fn config_given(alloc: Global, given: &ArgMatches<'_>) -> Result<Config, AllocError>
    ensures { IfOk result (GivesConfig (rows_of (found_of given.now))) }
{
    Ok(Config {
        keys: copies_of(alloc, given.get_strs("keys").unwrap_or(&[]))?,
        parses: given.get_one::<u32>("parses").unwrap_or(PARSES),
        evals: given.get_one::<u32>("evals").unwrap_or(EVALS),
    })
}

/// The command line of `portsd`, with its subcommands `serve` and `replay`.
fn portsd_command<'a>(alloc: Global) -> Result<Command<'a>, AllocError>
    ensures { IfOk result (λ command. app_of command ≡ portsd) }
{
    Command::new(alloc, "portsd")
        .about(
            "portsd 0.1.0 keeps ports trees for several tenants and answers what their ports are",
        )
        .subcommand_required(true)
        .subcommand(serve_command(alloc)?)?
        .subcommand(replay_command(alloc)?)
}

/// The command line of the subcommand `serve`, with its arguments.
fn serve_command<'a>(alloc: Global) -> Result<Command<'a>, AllocError>
    ensures { IfOk result (λ command. app_of command ≡ serve) }
{
    let parses = "The most parsed files that are kept [default: 256]";
    let evals = "The most evaluations that are kept [default: 1024]";
    Command::new(alloc, "serve")
        .about("Serves clients over HTTP/1.1 on 127.0.0.1")
        .arg(port_argument(alloc))?
        .arg(turns_argument(alloc))?
        .arg(size_argument(alloc, "parses", parses))?
        .arg(size_argument(alloc, "evals", evals))?
        .arg(keys_argument(alloc))
}

/// The command line of the subcommand `replay`, with its arguments.
fn replay_command<'a>(alloc: Global) -> Result<Command<'a>, AllocError>
    ensures { IfOk result (λ command. app_of command ≡ replay) }
{
    let parses = "The most parsed files that are kept [default: 256]";
    let evals = "The most evaluations that are kept [default: 1024]";
    Command::new(alloc, "replay")
        .about("Runs a script of events from standard input and prints what was told and sent")
        .arg(size_argument(alloc, "parses", parses))?
        .arg(size_argument(alloc, "evals", evals))?
        .arg(keys_argument(alloc))
}

/// The argument `--port` of the command line: the port of 127.0.0.1 to listen on.
fn port_argument<'a>(alloc: Global) -> Arg<'a>
    ensures { (rule_of result ≡ port_argument) × (result.global ≡ false) }
{
    Arg::new(alloc, "port")
        .long("port")
        .value_name("P")
        .help("The port of 127.0.0.1 to listen on")
        .required(true)
        .action(ArgAction::Set)
        .value_parser(clap::value_parser!(u16).range(1..=LAST_PORT as i64))
}

/// The argument `--turns` of the command line: how many rounds to serve.
fn turns_argument<'a>(alloc: Global) -> Arg<'a>
    ensures { (rule_of result ≡ turns_argument) × (result.global ≡ false) }
{
    Arg::new(alloc, "turns")
        .long("turns")
        .value_name("N")
        .help("How many rounds to serve, each with a turn for each tenant")
        .required(true)
        .action(ArgAction::Set)
        .value_parser(clap::value_parser!(u32).range(1..=MOST_ROUNDS as i64))
}

/// An argument of the command line, `--parses` or `--evals`, that says how many may be kept.
fn size_argument<'a>(alloc: Global, name: &'a str, help: &'a str) -> Arg<'a>
    ensures { (rule_of result ≡ size_argument name.entry.now) × (result.global ≡ false) }
{
    Arg::new(alloc, name)
        .long(name)
        .value_name("N")
        .help(help)
        .action(ArgAction::Set)
        .value_parser(clap::value_parser!(u32).range(1..=MOST_KEPT as i64))
}

/// The argument of the command line that has the keys of the tenants.
fn keys_argument<'a>(alloc: Global) -> Arg<'a>
    ensures { (rule_of result ≡ keys_argument) × (result.global ≡ false) }
{
    Arg::new(alloc, "keys")
        .value_name("KEY")
        .help("The keys of the tenants, which are numbered from 0")
        .required(true)
        .num_args(1..)
        .action(ArgAction::Append)
}
