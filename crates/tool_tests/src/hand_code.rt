//! A program with tokens that is written by hand: its forms are those that no compiled program has.

ghost use Rattle.std.specs.Prelude.{◌≡◌, ◌<◌, ◌∷◌, [], map, IfOk};
ghost use Rattle.kk_counted.specs.TokenedForms.{TokenedMove, tokened_code, tokened_function, tokened_move};
ghost use Rattle.rv_cells.specs.Tables.{table_of};
ghost use Rattle.tool_tests.specs.HandCode.{hand_code, hand_fields, hand_function, hand_marks, hand_tags, filled_again, opened_twice};

use elf_image::write;
use kk_back::image;
use kk_base::{Bytes, NoMemory};
use kk_core::ConstructorShape;
use kk_counted::{
    InstanceShape, Shape, Tokened, TokenedBlock, TokenedFun, TokenedLast, TokenedStep,
};
use kk_syntax::Form;
use rv_cells::judged_programs_are_fit;
use std::alloc::Global;

/// A constructor, by its type and its tag.
fn constructor(of_type: u32, tag: u32, has_cells: bool, fields: Vec<bool>) -> ConstructorShape
    ensures { result ≡ record { of_type = of_type; tag = tag; has_cells = has_cells; fields = fields } }
{
    ConstructorShape {
        of_type,
        tag,
        has_cells,
        fields,
    }
}

/// `False`, `True`, `Zero` and `S(before: nat)`, and `main`, which gives `()`.
fn hand_shape(alloc: Global) -> Result<Shape, NoMemory>
    ensures tags { IfOk result (λ shape. map (λ one. one.tag) shape.constructors.items ≡ hand_tags) }
    ensures fields { IfOk result (λ shape. map (λ one. one.fields.items) shape.constructors.items ≡ hand_fields) }
    ensures marks { IfOk result (λ shape. table_of shape ≡ hand_marks) }
{
    let falsity = constructor(0, 0, false, Vec::new(alloc));
    let truth = constructor(0, 1, false, Vec::new(alloc));
    let zero = constructor(1, 0, true, Vec::new(alloc));
    let successor = constructor(1, 1, true, vec![in alloc; true]?);
    let main = InstanceShape {
        parameters: Vec::new(alloc),
        result_has_cells: false,
    };
    let constructors = vec![in alloc; falsity, truth, zero, successor]?;
    Ok(Shape::new(vec![in alloc; main]?, constructors))
}

/// A form on some variables, whose value a variable takes.
fn computes(
    alloc: Global,
    variable: u32,
    form: Form,
    arguments: &[u32],
    others: &[u32],
) -> Result<TokenedStep, NoMemory>
    ensures { IfOk result (λ step. tokened_move step ≡ TokenedMove.computes variable form arguments.now others.now) }
{
    Ok(TokenedStep::Let {
        variable,
        form,
        arguments: Vec::from_slice(alloc, arguments)?,
        others: Vec::from_slice(alloc, others)?,
    })
}

/// An opening that does not go by the count of the cell.
fn opens(
    alloc: Global,
    variable: u32,
    field: u32,
    used: &[u32],
    slot: u32,
) -> Result<TokenedStep, NoMemory>
    ensures { IfOk result (λ step. tokened_move step ≡ TokenedMove.opens variable 3 (field ∷ []) used.now slot) }
{
    Ok(TokenedStep::Open {
        variable,
        constructor: 3,
        fields: vec![in alloc; field]?,
        used: Vec::from_slice(alloc, used)?,
        slot,
    })
}

fn twice_opened(alloc: Global) -> Result<TokenedBlock, NoMemory>
    ensures { IfOk result (λ block. tokened_code block ≡ opened_twice) }
{
    let first = opens(alloc, 2, 3, &[3], 0)?;
    let second = opens(alloc, 2, 4, &[], 1)?;
    let steps = vec![in alloc; first, second, TokenedStep::Free { slot: 0 }]?;
    Ok(TokenedBlock {
        steps,
        last: TokenedLast::Return(3),
    })
}

fn again_filled(alloc: Global) -> Result<Box<TokenedBlock>, NoMemory>
    ensures { IfOk result (λ block. tokened_code block.value ≡ filled_again) }
{
    let zero = computes(alloc, 7, Form::Construct(2), &[], &[])?;
    let fill = TokenedStep::Fill {
        variable: 8,
        slot: 1,
        constructor: 3,
        first: 7,
        arguments: Vec::new(alloc),
        kept: Vec::new(alloc),
        others: Vec::new(alloc),
    };
    let unit = computes(alloc, 9, Form::Unit, &[], &[])?;
    let drop_first = TokenedStep::Drop { variable: 6 };
    let drop_second = TokenedStep::Drop { variable: 8 };
    let steps = vec![in alloc; drop_first, zero, fill, drop_second, unit]?;
    let block = TokenedBlock {
        steps,
        last: TokenedLast::Return(9),
    };
    Ok(Box::new(alloc, block)?)
}

fn hand_body(alloc: Global) -> Result<TokenedBlock, NoMemory>
    ensures { IfOk result (λ block. tokened_code block ≡ hand_code) }
{
    let zero = computes(alloc, 0, Form::Construct(2), &[], &[])?;
    let older = computes(alloc, 1, Form::Construct(3), &[0], &[])?;
    let newer = computes(alloc, 2, Form::Construct(3), &[1], &[])?;
    let inside = TokenedStep::Inside {
        variable: 5,
        block: twice_opened(alloc)?,
    };
    let third = computes(alloc, 6, Form::Construct(3), &[5], &[1])?;
    let dup = TokenedStep::Dup { variable: 2 };
    let steps = vec![in alloc; zero, older, newer, dup, inside, third]?;
    let there = again_filled(alloc)?;
    let absent = again_filled(alloc)?;
    Ok(TokenedBlock {
        steps,
        last: TokenedLast::IfToken(1, there, absent),
    })
}

/// The program of that function.
pub(crate) fn hand_program(alloc: Global) -> Result<Tokened, NoMemory>
    ensures tags { IfOk result (λ tokened. map (λ one. one.tag) tokened.shape.constructors.items ≡ hand_tags) }
    ensures fields { IfOk result (λ tokened. map (λ one. one.fields.items) tokened.shape.constructors.items ≡ hand_fields) }
    ensures marks { IfOk result (λ tokened. table_of tokened.shape ≡ hand_marks) }
    ensures code { IfOk result (λ tokened. map tokened_function tokened.functions.items ≡ hand_function ∷ []) }
{
    let shape = hand_shape(alloc)?;
    let main = TokenedFun {
        parameters: 0,
        body: hand_body(alloc)?,
    };
    Ok(Tokened {
        shape,
        functions: vec![in alloc; main]?,
        body_nodes: 1,
        nodes: 1,
    })
}

/// The file of its image, with few cells.
pub(crate) fn hand_file(alloc: Global, cells: u32) -> Result<Bytes, NoMemory>
    requires { cells < 4 }
{
    let tokened = hand_program(alloc)?;
    judged_programs_are_fit();
    let image = image(alloc, &tokened, &[], cells, 1)?;
    let file = write(alloc, &image)?;
    Ok(file)
}
