ghost use Rattle.std.specs.Prelude.{◌≡◌, ◌≤◌, map, string_bytes, IfOk, IfSome, option_map};
ghost use Rattle.clap.specs.Words.{found_of, rows_of, first_of, subcommand_rows_of};
ghost use Rattle.kk_base.specs.Sizes.{greatest_cells, greatest_depth};
ghost use Rattle.kk_command.specs.Requests.{request_of, request_named, entered_request, check_in, build_in, run_in, sim_in};
ghost use Rattle.kk_command.specs.Requests.{eval_in, bench_in, seed_in, size_in, cells_in, depth_in, steps_in, stats_in};
ghost use Rattle.kk_command.specs.Commands.{request_read};
ghost use Rattle.kk_command.specs.ProgramSizes.{least_size, greatest_size};

use crate::application::application;
use crate::command::{Command, Generation, RunOptions, Sizes};
use clap::ArgMatches;
use clap::error::ErrorKind;
use kk_base::{GREATEST_CELLS, GREATEST_DEPTH, NoMemory};
use kk_number::number_in;
use std::alloc::Global;

const DEFAULT_CELLS: u32 = 65_536;

const DEFAULT_DEPTH: u32 = 4_096;

const DEFAULT_STEPS: u64 = 1_000_000_000;

/// The greatest number of instructions that a run may be asked for.
const GREATEST_STEPS: u64 = 9_223_372_036_854_775_807;

/// The greatest size of a generated program.
const GREATEST_SIZE: u64 = 100;

/// The command that the words of a line are; none where they are no command. The first word is the program's name.
pub fn command_in<'a>(alloc: Global, words: &'a [String]) -> Result<Option<Command<'a>>, NoMemory>
    ensures { IfOk result (λ read. option_map request_read read ≡ request_of (map string_bytes words.now)) }
{
    let matches = match application(alloc)?.try_get_matches_from(words) {
        Ok(matches) => matches,
        Err(error) if error.kind() == ErrorKind::OutOfMemory => return Err(NoMemory),
        Err(_) => return Ok(None),
    };
    Ok(command_of(&matches))
}

fn command_of<'a>(matches: &ArgMatches<'a>) -> Option<Command<'a>>
    ensures { option_map request_read result ≡ entered_request (subcommand_rows_of matches.now) }
{
    let (name, matches) = matches.subcommand()?;
    command_named(name, matches)
}

fn command_named<'a>(name: &str, matches: &ArgMatches<'a>) -> Option<Command<'a>>
    ensures { option_map request_read result ≡ request_named name.now (rows_of (found_of matches.now)) }
{
    match name {
        "check" => check_in(matches),
        "build" => build_in(matches),
        "run" => run_in(matches),
        "sim" => sim_in(matches),
        "eval" => eval_in(matches),
        "bench" => bench_in(matches),
        _ => None,
    }
}

fn check_in<'a>(matches: &ArgMatches<'a>) -> Option<Command<'a>>
    ensures { option_map request_read result ≡ check_in (rows_of (found_of matches.now)) }
{
    let file = value_of(matches, "file")?;
    Some(Command::Check { file })
}

fn build_in<'a>(matches: &ArgMatches<'a>) -> Option<Command<'a>>
    ensures { option_map request_read result ≡ build_in (rows_of (found_of matches.now)) }
{
    let file = value_of(matches, "file")?;
    let out = value_of(matches, "out")?;
    let cells = cells_in(matches)?;
    let depth = depth_in(matches)?;
    Some(Command::Build {
        file,
        out,
        sizes: Sizes { cells, depth },
    })
}

fn run_in<'a>(matches: &ArgMatches<'a>) -> Option<Command<'a>>
    ensures { option_map request_read result ≡ run_in (rows_of (found_of matches.now)) }
{
    let file = value_of(matches, "file")?;
    let cells = cells_in(matches)?;
    let depth = depth_in(matches)?;
    let steps = steps_in(matches)?;
    Some(Command::Run {
        file,
        options: RunOptions {
            sizes: Sizes { cells, depth },
            steps,
            stats: stats_in(matches),
        },
    })
}

fn sim_in<'a>(matches: &ArgMatches<'a>) -> Option<Command<'a>>
    ensures { option_map request_read result ≡ sim_in (rows_of (found_of matches.now)) }
{
    let image = value_of(matches, "image")?;
    let steps = steps_in(matches)?;
    Some(Command::Sim { image, steps })
}

fn eval_in<'a>(matches: &ArgMatches<'a>) -> Option<Command<'a>>
    ensures { option_map request_read result ≡ eval_in (rows_of (found_of matches.now)) }
{
    let file = value_of(matches, "file")?;
    let cells = cells_in(matches)?;
    let depth = depth_in(matches)?;
    let steps = steps_in(matches)?;
    Some(Command::Eval {
        file,
        sizes: Sizes { cells, depth },
        steps,
    })
}

fn bench_in<'a>(matches: &ArgMatches<'a>) -> Option<Command<'a>>
    ensures { option_map request_read result ≡ bench_in (rows_of (found_of matches.now)) }
{
    let seed = seed_in(matches)?;
    let size = size_in(matches)?;
    let cells = cells_in(matches)?;
    let depth = depth_in(matches)?;
    let steps = steps_in(matches)?;
    Some(Command::Bench {
        generation: Generation { seed, size },
        sizes: Sizes { cells, depth },
        steps,
    })
}

fn seed_in(matches: &ArgMatches<'_>) -> Option<u32>
    ensures { result ≡ seed_in (rows_of (found_of matches.now)) }
{
    let text = value_of(matches, "seed")?;
    Some(number_in(0, u64::from(u32::MAX), text)? as u32)
}

fn size_in(matches: &ArgMatches<'_>) -> Option<u32>
    ensures value { result ≡ size_in (rows_of (found_of matches.now)) }
    ensures some { IfSome result (λ size. least_size ≤ size) }
    ensures few { IfSome result (λ size. size ≤ greatest_size) }
{
    let text = value_of(matches, "size")?;
    Some(number_in(1, GREATEST_SIZE, text)? as u32)
}

fn cells_in(matches: &ArgMatches<'_>) -> Option<u32>
    ensures value { result ≡ cells_in (rows_of (found_of matches.now)) }
    ensures few { IfSome result (λ cells. cells ≤ greatest_cells) }
{
    match value_of(matches, "cells") {
        Some(text) => Some(number_in(0, u64::from(GREATEST_CELLS), text)? as u32),
        None => Some(DEFAULT_CELLS),
    }
}

fn depth_in(matches: &ArgMatches<'_>) -> Option<u32>
    ensures value { result ≡ depth_in (rows_of (found_of matches.now)) }
    ensures some { IfSome result (λ depth. 1 ≤ depth) }
    ensures small { IfSome result (λ depth. depth ≤ greatest_depth) }
{
    match value_of(matches, "depth") {
        Some(text) => Some(number_in(1, u64::from(GREATEST_DEPTH), text)? as u32),
        None => Some(DEFAULT_DEPTH),
    }
}

fn steps_in(matches: &ArgMatches<'_>) -> Option<u64>
    ensures { result ≡ steps_in (rows_of (found_of matches.now)) }
{
    match value_of(matches, "steps") {
        Some(text) => number_in(0, GREATEST_STEPS, text),
        None => Some(DEFAULT_STEPS),
    }
}

fn stats_in(matches: &ArgMatches<'_>) -> bool
    ensures { result ≡ stats_in (rows_of (found_of matches.now)) }
{
    match value_of(matches, "stats") {
        Some(text) => text == "true",
        None => false,
    }
}

/// The value that was given for an argument.
fn value_of<'a>(matches: &ArgMatches<'a>, id: &str) -> Option<&'a str>
    ensures { option_map (λ text. text.now) result ≡ first_of id.now (rows_of (found_of matches.now)) }
{
    matches.get_str(id)
}
