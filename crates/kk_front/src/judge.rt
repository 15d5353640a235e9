ghost use Rattle.std.specs.Prelude.{IfOk, IfErr};
ghost use Rattle.kk_syntax.specs.Covered.{Each};
ghost use Rattle.kk_syntax.specs.Programs.{program_tree};
ghost use Rattle.kk_syntax.specs.Typing.{ArePrincipal};
ghost use Rattle.kk_syntax.specs.TypedPrograms.{typings_of};
ghost use Rattle.kk_syntax.specs.Matches.{IsFunctionCovered};
ghost use Rattle.kk_mono.specs.Grounds.{AreGiven};
ghost use Rattle.kk_front.specs.Judgement.{ChecksLength, IsProgramOf, Refuses, EachTextIsJudged};

use crate::accept::accept;
use kk_base::{Limit, LimitKind, NoMemory, Refusal};
use kk_cover::each_typed_program_is_decided;
use kk_layout::laid_out;
use kk_lexer::{each_text_is_read, tokens};
use kk_mono::each_program_is_counted;
use kk_names::{each_tree_is_resolved, resolve};
use kk_parser::{each_list_is_parsed, parse};
use kk_syntax::Accepted;
use kk_types::each_program_is_checked;
use std::alloc::Global;

/// The program of a text with its types and its instances, or why the text is not accepted: its first failure.
pub fn read(alloc: Global, text: &[u8]) -> Result<Accepted, Refusal>
    ensures program { IfOk result (λ accepted. IsProgramOf text.now (program_tree accepted.typed.program)) }
    ensures principal { IfOk result (λ accepted.
        ArePrincipal (program_tree accepted.typed.program) (typings_of accepted.typed)) }
    ensures covered { IfOk result (λ accepted.
        let program = program_tree accepted.typed.program in Each (IsFunctionCovered program) program.functions) }
    ensures instances { IfOk result (λ accepted. AreGiven accepted.typed accepted.instances) }
    ensures err { IfErr result (Refuses text.now) }
{
    if let Err(limit) = check_length(text) {
        return Err(Refusal::Over(limit));
    }
    let tokens = match tokens(alloc, text) {
        Ok(tokens) => tokens,
        Err(error) => return Err(Refusal::Lex(error)),
    };
    let tokens = match laid_out(alloc, &tokens) {
        Ok(tokens) => tokens,
        Err(NoMemory) => return Err(Refusal::NoMemory),
    };
    let tree = match parse(alloc, &tokens) {
        Ok(tree) => tree,
        Err(error) => return Err(Refusal::Parse(error)),
    };
    match resolve(alloc, tree) {
        Ok(program) => accept(alloc, program),
        Err(error) => Err(Refusal::Name(error)),
    }
}

/// Each text is accepted as exactly one program, or refused for exactly one cause, which is no want of memory. Of a match that
/// is not covered, the cause is told by any pattern that no row matches. It is a law, and does nothing.
pub fn each_text_is_judged()
    ensures { EachTextIsJudged }
{
    each_text_is_read();
    each_list_is_parsed();
    each_tree_is_resolved();
    each_program_is_checked();
    each_typed_program_is_decided();
    each_program_is_counted();
}

/// Checks that the text is not too long. No more than one byte above the greatest number is read of a file, so that is
/// the count that is told.
fn check_length(text: &[u8]) -> Result<(), Limit>
    ensures { ChecksLength text.now result }
{
    let greatest = LimitKind::Source.greatest();
    if text.len() as u64 > greatest {
        return Err(Limit {
            kind: LimitKind::Source,
            count: greatest + 1,
        });
    }
    Ok(())
}
