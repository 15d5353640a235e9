ghost use Rattle.std.specs.Prelude.{◌≡◌, ℕ, List, IfOk};
ghost use Rattle.kk_counted.specs.Programs.{program_of};
ghost use Rattle.kk_counted.specs.TokenedForms.{tokened_program};
ghost use Rattle.kk_reuse.specs.Pairing.{paired_program};

use crate::pairing::{Behind, paired_block};
use kk_base::NoMemory;
use kk_counted::{Counted, Tokened, TokenedFun};
use std::alloc::Global;

/// The program with each construction in the cell of the newest token of its function, if there is one. At a call the tokens are
/// held, once for calls with drops alone between them, and where no construction can follow they are freed.
///
/// The recursion is as deep as the blocks of the code. In front of each form the forms that follow it are looked at once or twice,
/// to see whether a construction can follow: it takes time as the square of the length of a body.
pub fn run(alloc: Global, counted: Counted) -> Result<Tokened, NoMemory>
    ensures shape { IfOk result (λ made. made.shape ≡ counted.shape) }
    ensures program { IfOk result (λ made. (texts : List (List ℕ)) → tokened_program made.functions.items texts ≡ paired_program (program_of counted.functions.items texts)) }
    ensures body_nodes { IfOk result (λ made. made.body_nodes ≡ counted.body_nodes) }
    ensures nodes { IfOk result (λ made. made.nodes ≡ counted.nodes) }
{
    let behind = Behind {
        makes: false,
        left: 0,
    };
    let (shape, functions, body_nodes, nodes) = counted.parts();
    let mut made = Vec::new(alloc);
    for function in &functions {
        let body = paired_block(alloc, behind, 0, function.body())?;
        made.push(TokenedFun {
            parameters: function.parameters(),
            body,
        })?;
    }
    Ok(Tokened {
        shape,
        functions: made,
        body_nodes,
        nodes,
    })
}
