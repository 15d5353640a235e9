ghost use Rattle.std.specs.Prelude.{◌≡◌, ◌≤◌, string_bytes, IfOk};
ghost use Rattle.kk_gen.specs.Generated.{next_number, body_of, function_line, function_lines, steps_of, generated};

use kk_base::{Bytes, NoMemory};
use std::alloc::Global;

/// What every generated program begins with: lists, and a list that is built, reversed and summed.
const LISTS: &str = "\
type list<a> { Nil; Cons(head: a, tail: list<a>) }
fun build(n: int32): list<int32> { if n == 0 then Nil else Cons(n, build(n - 1)) }
fun rev(xs: list<int32>, acc: list<int32>): list<int32> { match xs { Nil -> acc; Cons(x, xx) -> rev(xx, Cons(x, acc)) } }
fun sum(xs: list<int32>, acc: int32): int32 { match xs { Nil -> acc; Cons(x, xx) -> sum(xx, acc + x) } }
";

/// The text of the program of a seed and a size, which is the number of its functions `f1`, `f2` and so on. Each takes a list
/// and gives a list; which of four functions it is, and with which constant, depends on the seed. `main` applies one after
/// the other to a list of 1,000 numbers and prints the sum of the last list.
pub fn program(alloc: Global, seed: u32, size: u32) -> Result<Bytes, NoMemory>
    requires small { 1 ≤ size }
    requires large { size ≤ 100 }
    ensures { IfOk result (λ text. text ≡ generated seed size) }
{
    let functions = functions(alloc, seed, size)?;
    let steps = steps(alloc, size)?;
    let text = format!(in alloc;
        "{LISTS}{functions}fun main() {{ val a0 = build(1000); {steps}println(sum(a{size}, 0)) }}\n"
    )?;
    Ok(Bytes::from_vec(text.into_bytes()))
}

/// The lines of the functions.
fn functions(alloc: Global, seed: u32, size: u32) -> Result<String, NoMemory>
    requires { size ≤ 100 }
    ensures { IfOk result (λ lines. string_bytes lines ≡ function_lines seed size) }
{
    let mut lines = String::new(alloc);
    let mut number = seed;
    for before in 0..size {
        number = following(number);
        let line = function(alloc, before + 1, number)?;
        lines.push_str(&line)?;
    }
    Ok(lines)
}

/// What `main` does with each of the functions.
fn steps(alloc: Global, size: u32) -> Result<String, NoMemory>
    requires { size ≤ 100 }
    ensures { IfOk result (λ steps. string_bytes steps ≡ steps_of size) }
{
    let mut steps = String::new(alloc);
    for before in 0..size {
        let index = before + 1;
        let step = format!(in alloc; "val a{index} = f{index}(a{before}); ")?;
        steps.push_str(&step)?;
    }
    Ok(steps)
}

/// The number behind a number, of the linear congruential generator of Numerical Recipes.
fn following(number: u32) -> u32
    ensures { result ≡ next_number number }
{
    number.wrapping_mul(1664525).wrapping_add(1013904223)
}

/// The line of the function of an index, by its number.
fn function(alloc: Global, index: u32, number: u32) -> Result<String, NoMemory>
    ensures { IfOk result (λ line. string_bytes line ≡ function_line index number) }
{
    let body = body(alloc, number / 65536 % 4, index, number / 256 % 100)?;
    Ok(format!(in alloc; "fun f{index}(xs: list<int32>): list<int32> {{ {body} }}\n")?)
}

/// The body of a function of a kind, with its index and its constant.
fn body(alloc: Global, kind: u32, index: u32, constant: u32) -> Result<String, NoMemory>
    ensures { IfOk result (λ body. string_bytes body ≡ body_of kind index constant) }
{
    Ok(match kind {
        0 => format!(in alloc;
            "match xs {{ Nil -> Nil; Cons(x, xx) -> Cons(x + {constant}, f{index}(xx)) }}"
        )?,
        1 => String::from_str(alloc, "rev(xs, Nil)")?,
        2 => format!(in alloc;
            "match xs {{ Nil -> Nil; Cons(x, xx) -> if x % 7 == {} then f{index}(xx) else Cons(x, f{index}(xx)) }}",
            constant % 7
        )?,
        _ => format!(in alloc;
            "match xs {{ Cons(x, Cons(y, ys)) -> Cons(y, Cons(x, f{index}(ys))); _ -> xs }}"
        )?,
    })
}
