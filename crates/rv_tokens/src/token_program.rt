// The assembler code of programs with tokens.

ghost use Rattle.std.specs.Prelude.{map, IfOk};
ghost use Rattle.kk_counted.specs.BareForms.{bare_function};
ghost use Rattle.kk_counted.specs.Lowerable.{AreLowerable};
ghost use Rattle.kk_counted.specs.TokenLowerable.{AreTokensLowerable};
ghost use Rattle.kk_counted.specs.TokenedForms.{tokened_function};
ghost use Rattle.rv_isa.specs.AsmCode.{lines_of, asm_functions, asm_constants};
ghost use Rattle.rv_tokens.specs.TokenedFunctions.{LoweredTokened};
ghost use Rattle.rv_cells.specs.TokenedLowered.{IsTokenedForm};
ghost use Rattle.rv_cells.specs.Tables.{table_of};

use crate::known::Known;
use crate::token_block::write_tokened;
use kk_base::{NoMemory, Text};
use kk_counted::{Shape, Tokened, TokenedFun};
use kk_syntax::StringLiteral;
use rv_cells::{slots_of_block, standing_of, tokened_marks_of};
use rv_isa::{Asm, AsmFunction};
use rv_lower::{Goal, Lowering, parameters};
use std::alloc::Global;

/// The assembler code of the function of this number of a program with this shape and these string literals, and the constant
/// bytes of the program with its own behind them.
fn lower_tokened_function(
    alloc: Global,
    shape: &Shape,
    literals: &[StringLiteral],
    number: usize,
    function: &TokenedFun,
    texts: Vec<Text>,
) -> Result<(AsmFunction, Vec<Text>), NoMemory>
    ensures { IfOk result (λ r. LoweredTokened shape.now literals.now number (tokened_function function.now) (lines_of r.0)
        texts.items r.1.items) }
{
    let marks = tokened_marks_of(alloc, shape, number, function)?;
    let known = Known {
        literals,
        constructors: shape.constructors(),
        marks: &marks,
        standing: standing_of(&function.body),
    };
    let slots = slots_of_block(&function.body)?;
    let mut lowering = Lowering {
        alloc,
        code: Vec::new(alloc),
        texts,
        base: known.slot(slots)?,
        next_label: 0,
    };
    write_tokened(&mut lowering, &known, &function.body, Goal::Return)?;
    let params = parameters(alloc, function.parameters)?;
    let Lowering { code, texts, .. } = lowering;
    Ok((AsmFunction { params, code }, texts))
}

/// The assembler code of a program with tokens, with these string literals.
pub fn lower_tokened(
    alloc: Global,
    tokened: &Tokened,
    texts: &[StringLiteral],
) -> Result<Asm, NoMemory>
    requires bare { AreLowerable (table_of tokened.now.shape) (map bare_function (map tokened_function tokened.now.functions.items)) }
    requires tokens { AreTokensLowerable (map tokened_function tokened.now.functions.items) }
    ensures { IfOk result (λ asm. IsTokenedForm tokened.now.shape texts.now (map tokened_function tokened.now.functions.items)
        (asm_functions asm) (asm_constants asm)) }
{
    let mut functions = Vec::new(alloc);
    let mut constants = Vec::new(alloc);
    let mut number = 0;
    for function in &tokened.functions {
        let (lowered, more) = lower_tokened_function(
            alloc,
            &tokened.shape,
            texts,
            number,
            function,
            constants,
        )?;
        constants = more;
        functions.push(lowered)?;
        number += 1;
    }
    Ok(Asm {
        functions,
        constants,
    })
}
