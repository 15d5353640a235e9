//! The line of the program, for clap.
ghost use Rattle.std.specs.Prelude.{◌≡◌, false, codes, IfOk, IsOkAnd};
ghost use Rattle.clap.specs.Words.{app_of, rule_of, with_rule, with_subcommand};
ghost use Rattle.clap.specs.declared.builder.command.Command.TheViews.{out-Command as fields_of};
ghost use Rattle.kk_command.specs.Requests.{required, optional, flag, out_rule, check_app, with_sizes, build_app, run_app, sim_app, eval_app, bench_app, bare_app, line_app};

use clap::{Arg, ArgAction, Command as App};
use std::alloc::{AllocError, Global};

/// An argument that has to be there, such as FILE.
fn argument<'a>(alloc: Global, name: &'a str) -> Arg<'a>
    ensures rule { rule_of result ≡ required name.entry.now }
    ensures local { result.global ≡ false }
{
    Arg::new(alloc, name).required(true)
}

/// The option `-o OUT`.
fn out<'a>(alloc: Global) -> Arg<'a>
    ensures rule { rule_of result ≡ out_rule }
    ensures local { result.global ≡ false }
{
    Arg::new(alloc, "out").required(true).short('o')
}

/// An option `--name N`.
fn number_option<'a>(alloc: Global, name: &'a str) -> Arg<'a>
    ensures rule { rule_of result ≡ optional name.entry.now }
    ensures local { result.global ≡ false }
{
    Arg::new(alloc, name).long(name)
}

/// The flag `--stats`.
fn stats<'a>(alloc: Global) -> Arg<'a>
    ensures rule { rule_of result ≡ flag (codes "stats") }
    ensures local { result.global ≡ false }
{
    Arg::new(alloc, "stats")
        .long("stats")
        .action(ArgAction::SetTrue)
}

/// Adds an argument to a command without global arguments, where the command is there.
fn with<'a>(command: Result<App<'a>, AllocError>, argument: Arg<'a>) -> Result<App<'a>, AllocError>
    requires command { IfOk command (λ c. (fields_of c).has_globals ≡ false) }
    requires argument { argument.global ≡ false }
    ensures app { IfOk result (λ r. IsOkAnd command.entry (λ c. app_of r ≡ with_rule (app_of c) (rule_of argument.entry))) }
    ensures local { IfOk result (λ r. (fields_of r).has_globals ≡ false) }
{
    command?.arg(argument)
}

fn check_command<'a>(alloc: Global) -> Result<App<'a>, AllocError>
    ensures app { IfOk result (λ c. app_of c ≡ check_app) }
    ensures local { IfOk result (λ c. (fields_of c).has_globals ≡ false) }
{
    with(Ok(App::new(alloc, "check")), argument(alloc, "file"))
}

/// Adds the sizes that an image is built with.
fn with_size_options<'a>(
    alloc: Global,
    command: Result<App<'a>, AllocError>,
) -> Result<App<'a>, AllocError>
    requires { IfOk command (λ c. (fields_of c).has_globals ≡ false) }
    ensures app { IfOk result (λ r. IsOkAnd command.entry (λ c. app_of r ≡ with_sizes (app_of c))) }
    ensures local { IfOk result (λ c. (fields_of c).has_globals ≡ false) }
{
    let command = with(command, number_option(alloc, "cells"));
    with(command, number_option(alloc, "depth"))
}

fn build_command<'a>(alloc: Global) -> Result<App<'a>, AllocError>
    ensures app { IfOk result (λ c. app_of c ≡ build_app) }
    ensures local { IfOk result (λ c. (fields_of c).has_globals ≡ false) }
{
    let command = with(Ok(App::new(alloc, "build")), argument(alloc, "file"));
    let command = with(command, out(alloc));
    with_size_options(alloc, command)
}

fn run_command<'a>(alloc: Global) -> Result<App<'a>, AllocError>
    ensures app { IfOk result (λ c. app_of c ≡ run_app) }
    ensures local { IfOk result (λ c. (fields_of c).has_globals ≡ false) }
{
    let command = with(Ok(App::new(alloc, "run")), argument(alloc, "file"));
    let command = with_size_options(alloc, command);
    let command = with(command, number_option(alloc, "steps"));
    with(command, stats(alloc))
}

fn sim_command<'a>(alloc: Global) -> Result<App<'a>, AllocError>
    ensures app { IfOk result (λ c. app_of c ≡ sim_app) }
    ensures local { IfOk result (λ c. (fields_of c).has_globals ≡ false) }
{
    let command = with(Ok(App::new(alloc, "sim")), argument(alloc, "image"));
    with(command, number_option(alloc, "steps"))
}

fn eval_command<'a>(alloc: Global) -> Result<App<'a>, AllocError>
    ensures app { IfOk result (λ c. app_of c ≡ eval_app) }
    ensures local { IfOk result (λ c. (fields_of c).has_globals ≡ false) }
{
    let command = with(Ok(App::new(alloc, "eval")), argument(alloc, "file"));
    let command = with_size_options(alloc, command);
    with(command, number_option(alloc, "steps"))
}

fn bench_command<'a>(alloc: Global) -> Result<App<'a>, AllocError>
    ensures app { IfOk result (λ c. app_of c ≡ bench_app) }
    ensures local { IfOk result (λ c. (fields_of c).has_globals ≡ false) }
{
    let command = with(Ok(App::new(alloc, "bench")), argument(alloc, "seed"));
    let command = with(command, argument(alloc, "size"));
    let command = with_size_options(alloc, command);
    with(command, number_option(alloc, "steps"))
}

/// The program before its commands: no help and no version, and one of its commands has to be there.
fn bare_application<'a>(alloc: Global) -> App<'a>
    ensures app { app_of result ≡ bare_app }
{
    App::new(alloc, "kokarv")
        .disable_help_flag(true)
        .disable_help_subcommand(true)
        .subcommand_required(true)
}

/// Adds a command to the program, where both are there.
fn with_command<'a>(
    program: Result<App<'a>, AllocError>,
    command: Result<App<'a>, AllocError>,
) -> Result<App<'a>, AllocError>
    requires { IfOk command (λ c. (fields_of c).has_globals ≡ false) }
    ensures { IfOk result (λ r. IsOkAnd program.entry (λ p. IsOkAnd command.entry (λ c. app_of r ≡ with_subcommand (app_of p) (app_of c).top))) }
{
    program?.subcommand(command?)
}

/// The program with its commands, as clap reads its line.
pub fn application<'a>(alloc: Global) -> Result<App<'a>, AllocError>
    ensures app { IfOk result (λ c. app_of c ≡ line_app) }
{
    let program = Ok(bare_application(alloc));
    let program = with_command(program, check_command(alloc));
    let program = with_command(program, build_command(alloc));
    let program = with_command(program, run_command(alloc));
    let program = with_command(program, sim_command(alloc));
    let program = with_command(program, eval_command(alloc));
    with_command(program, bench_command(alloc))
}
