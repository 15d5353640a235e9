ghost use Rattle.std.specs.Prelude.{◌≡◌, ◌<◌, length, IfOk};
ghost use Rattle.kk_counted.specs.TokenedForms.{opens_with, fills_with, tokened_move};

use crate::shape::Shape;
use kk_base::NoMemory;
use kk_core::Decisions;
use kk_syntax::Form;
use std::alloc::Global;

/// Steps of code with tokens in their order, and how the block ends. A token stands in a slot of the function that runs.
#[cycle(tokened)]
#[derive(Drop)]
pub struct TokenedBlock {
    pub steps: Vec<TokenedStep>,
    pub last: TokenedLast,
}

/// A step of a block of code with tokens.
#[cycle(tokened)]
#[derive(Drop)]
pub enum TokenedStep {
    /// The variable takes the value of the form on the arguments, as a `Step::Let` does. The other slots are those of the
    /// unspent tokens, in the order in which a construction with fields tries them.
    Let {
        variable: u32,
        form: Form,
        arguments: Vec<u32>,
        others: Vec<u32>,
    },
    /// The variable takes the value of the block, which is run first.
    Inside {
        variable: u32,
        block: TokenedBlock,
    },
    /// The fields take the fields of the cell that the variable names, in their order. The cell stays, and no count changes.
    /// The constructor has made that cell.
    Read {
        variable: u32,
        constructor: u32,
        fields: Vec<u32>,
    },
    /// The same, and the variable's reference is given up. The used fields get a reference more. Where the cell is free then,
    /// the slot takes it as a token, and else it is null.
    Open {
        variable: u32,
        constructor: u32,
        fields: Vec<u32>,
        used: Vec<u32>,
        slot: u32,
    },
    /// The same as `Open`, by the count of the cell: one with a single reference gives the used fields away.
    IfUnique {
        variable: u32,
        constructor: u32,
        fields: Vec<u32>,
        used: Vec<u32>,
        slot: u32,
    },
    /// The value of the variable gets a reference more.
    Dup {
        variable: u32,
    },
    /// A reference of the value of the variable is given up.
    Drop {
        variable: u32,
    },
    /// The variable takes a cell of the constructor with the first argument and the others as its fields, in the cell of the
    /// slot's token, which is spent. The fields at the kept positions stay as the token has them. Where the slot is null all
    /// fields are written, in a new cell. The other slots are as in `Let`.
    Fill {
        variable: u32,
        slot: u32,
        constructor: u32,
        first: u32,
        arguments: Vec<u32>,
        kept: Vec<u32>,
        others: Vec<u32>,
    },
    /// The token of the slot is spent, and its cell is free.
    Free {
        slot: u32,
    },
    /// The slot has a token that is null.
    Null {
        slot: u32,
    },
    /// The first slot takes the token of the second, which is spent.
    Move {
        to: u32,
        from: u32,
    },
    /// The token of the slot is put on the chain of held tokens, from which a function that is called may take it.
    Hold {
        slot: u32,
    },
    /// The token of the slot is taken off the chain, if it is still there.
    Unhold {
        slot: u32,
    },
}

/// How a block of code with tokens ends.
#[cycle(tokened)]
#[derive(Drop)]
pub enum TokenedLast {
    /// By giving the value of a variable.
    Return(u32),
    /// By calling a function, whose value is given.
    TailCall(u32, Vec<u32>),
    /// As the block of the row that the decisions choose for the variable's value.
    Case(u32, Decisions, Vec<TokenedBlock>),
    /// As the first block where the slot has a token, and as the second where it is null.
    IfToken(u32, Box<TokenedBlock>, Box<TokenedBlock>),
}

/// The function of an instance, in code with tokens. Parameter `i` is variable `i`.
#[derive(Drop)]
pub struct TokenedFun {
    pub parameters: u32,
    pub body: TokenedBlock,
}

/// A program in code with tokens: its shape, and the functions of its instances at their numbers.
#[derive(Drop)]
pub struct Tokened {
    pub shape: Shape,
    pub functions: Vec<TokenedFun>,
    /// The greatest number of nodes of a body.
    pub body_nodes: u64,
    /// The number of nodes of all instances together.
    pub nodes: u64,
}

/// The step that opens a cell, by its count or not, of whose fields some are used. Its token stands in the slot.
pub fn opening_step(
    variable: u32,
    constructor: u32,
    fields: Vec<u32>,
    used: Vec<u32>,
    slot: u32,
    by_count: bool,
) -> TokenedStep
    ensures { tokened_move result ≡ opens_with by_count variable constructor fields.items used.items slot }
{
    if by_count {
        return TokenedStep::IfUnique {
            variable,
            constructor,
            fields,
            used,
            slot,
        };
    }
    TokenedStep::Open {
        variable,
        constructor,
        fields,
        used,
        slot,
    }
}

/// The step that builds a cell, which has fields, in the cell of a token.
pub fn filling_step(
    alloc: Global,
    variable: u32,
    slot: u32,
    constructor: u32,
    arguments: &[u32],
    kept: Vec<u32>,
    others: Vec<u32>,
) -> Result<TokenedStep, NoMemory>
    requires { 0 < length arguments.now }
    ensures { IfOk result (λ step. tokened_move step ≡ fills_with variable slot constructor arguments.now kept.items others.items) }
{
    let Some((first, rest)) = arguments.split_first() else {
        unreachable!();
    };
    let arguments = Vec::from_slice(alloc, rest)?;
    Ok(TokenedStep::Fill {
        variable,
        slot,
        constructor,
        first: *first,
        arguments,
        kept,
        others,
    })
}
