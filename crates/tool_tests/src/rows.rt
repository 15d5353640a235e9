//! The texts whose images are compared with the slow machine.

/// A text that begins with lists, and with functions that build one and count its cells.
macro_rules! with_lists {
    ($rest:literal) => {
        concat!(
            "type list<a> { Nil; Cons(head: a, tail: list<a>) }
fun build(n: int32): list<int32>
  if n == 0 then Nil else Cons(n, build(n - 1))
fun len(xs: list<a>): int32
  match xs
    Nil -> 0
    Cons(_, xx) -> 1 + len(xx)
",
            $rest
        )
    };
}

pub(crate) use with_lists;

/// A text, and the least numbers of cells and of open calls with which it ends by itself.
pub(crate) struct Row {
    pub(crate) text: &'static str,
    pub(crate) cells: u32,
    pub(crate) depth: u32,
}

/// The text of examples/reverse.kk.
pub(crate) const REVERSE: &str = with_lists!(
    "fun rev(xs: list<a>, acc: list<a>): list<a>
  match xs
    Cons(x, xx) -> rev(xx, Cons(x, acc))
    Nil -> acc
fun main()
  match rev(build(3), Nil)
    Cons(x, _) -> println(x)
    Nil -> println(0)
"
);

/// The text of examples/shared-pair.kk.
const SHARED_PAIR: &str = with_lists!(
    "type pair { Pair(fst: list<int32>, snd: list<int32>) }
fun main()
  val s = Cons(1, Nil)
  match Pair(s, s)
    Pair(a, b) -> println(len(a) + len(b))
"
);

/// The cells of the list are held as tokens while `summed` goes down it.
const HELD: &str = "type list<a> { Nil; Cons(head: a, tail: list<a>) }
fun build(n: int32): list<int32>
  if n == 0 then Nil else Cons(n, build(n - 1))
fun sum(xs: list<int32>): int32
  match xs
    Nil -> 0
    Cons(x, xx) -> x + sum(xx)
fun summed(xs: list<int32>): list<int32>
  match xs
    Cons(x, xx) -> Cons(x + sum(summed(xx)), Nil)
    Nil -> Cons(1, Nil)
fun main()
  println(sum(summed(build(3))))
";

/// A tree that is shared: `insert` copies a way of it, and fills the way again where no other reference is left.
const TREE: &str = "type tree { Leaf; Node(left: tree, value: int32, right: tree) }
fun insert(t: tree, n: int32): tree
  match t
    Leaf -> Node(Leaf, n, Leaf)
    Node(l, v, r) -> if n < v then Node(insert(l, n), v, r) else Node(l, v, insert(r, n))
fun fill(n: int32, t: tree): tree
  if n == 0 then t else fill(n - 1, insert(t, n * 7 % 11))
fun sum(t: tree): int32
  match t
    Leaf -> 0
    Node(l, v, r) -> sum(l) + v + sum(r)
fun main()
  val t = fill(5, Leaf)
  val u = insert(t, 6)
  println(sum(t))
  println(sum(insert(u, 4)))
";

/// The texts of examples/held-token.kk and examples/older-token.kk.
const HELD_TOKEN: &str = "type box { Box(v: int32) }
fun twice(n: int32): int32
  match Box(n + 1)
    Box(m) -> m * 2
fun g(b: box): box
  match b
    Box(v) -> Box(twice(v))
fun main()
  match g(Box(5))
    Box(r) -> println(r)
";

const OLDER_TOKEN: &str = "type box { Box(v: int32) }
fun h(p: box, q: box): box { match p { Box(x) -> match q { Box(y) -> Box(x + y) } } }
fun get(b: box): int32 { match b { Box(v) -> v } }
fun main() { val s = Box(2); match h(Box(1), s) { Box(r) -> println(r + get(s)) } }
";

/// The text of examples/many-tokens.kk with fewer cells, and a call that makes cells.
const MANY_TOKENS: &str = "type nat { Zero; S(before: nat) }
type pair { Pair(first: nat, second: nat) }
fun build(n: int32, built: nat): nat
  if n < 1 then built else build(n - 1, S(built))
fun count(x: nat, n: int32): int32
  match x {
    Zero -> n
    S(rest) -> count(rest, n + 1)
  }
fun shorter(both: pair): pair
  match both {
    Pair(S(S(S(a))), S(S(S(S(b))))) -> {
      println(count(build(3, S(Zero)), 0))
      Pair(S(a), S(b))
    }
    other -> other
  }
fun main()
  match shorter(Pair(build(4, Zero), build(5, Zero))) {
    Pair(a, b) -> {
      println(count(a, 0))
      println(count(b, 0))
    }
  }
";

/// Lists that are shared and lists that are not are incremented, and one is put before another.
const INCREMENT: &str = "type list<a> { Nil; Cons(head: a, tail: list<a>) }
fun build(n: int32): list<int32>
  if n == 0 then Nil else Cons(n, build(n - 1))
fun inc(xs: list<int32>): list<int32>
  match xs
    Nil -> Nil
    Cons(x, xx) -> Cons(x + 1, inc(xx))
fun append(xs: list<int32>, ys: list<int32>): list<int32>
  match xs
    Nil -> ys
    Cons(x, xx) -> Cons(x, append(xx, ys))
fun sum(xs: list<int32>): int32
  match xs
    Nil -> 0
    Cons(x, xx) -> x + sum(xx)
fun main()
  val xs = build(3)
  val ys = append(inc(xs), xs)
  println(sum(inc(ys)))
  println(sum(inc(append(xs, xs))))
";

/// A field stays as it is, and a tree is mirrored in its own cells. Its leaves are shared.
const MIRROR: &str = "type tree { Leaf(value: int32); Node(left: tree, right: tree) }
type both { Both(first: tree, second: tree) }
fun full(depth: int32, leaf: tree): tree
  if depth == 0 then leaf else Node(full(depth - 1, leaf), full(depth - 1, leaf))
fun mirror(t: tree): tree
  match t
    Leaf(v) -> Leaf(v - 1)
    Node(l, r) -> Node(mirror(r), mirror(l))
fun sum(t: tree): int32
  match t
    Leaf(v) -> v
    Node(l, r) -> sum(l) + 2 * sum(r)
fun second(of: both): both
  match of
    Both(x, y) -> Both(x, mirror(y))
fun main()
  val t = full(2, Leaf(3))
  match second(Both(t, Node(t, Leaf(1))))
    Both(x, y) -> { println(sum(x)); println(sum(y)) }
";

/// Behind the block of the match three tokens stand in the same slots, of which one is null where `One` was opened.
const JOINED: &str = "type box { Box(v: int32) }
type pair { Pair(first: box, second: box); One(only: box) }
fun j(p: pair): pair
  val c = p
  val t = match c
    Pair(Box(x), Box(y)) -> x + y
    One(Box(x)) -> x
  Pair(Box(t), Box(t + 1))
fun main()
  match j(j(One(Box(3))))
    Pair(Box(x), Box(y)) -> println(10 * x + y)
    One(Box(x)) -> println(x)
";

pub(crate) static ROWS: [Row; 10] = [
    Row {
        text: REVERSE,
        cells: 3,
        depth: 5,
    },
    Row {
        text: SHARED_PAIR,
        cells: 2,
        depth: 3,
    },
    Row {
        text: HELD,
        cells: 3,
        depth: 6,
    },
    Row {
        text: TREE,
        cells: 10,
        depth: 7,
    },
    Row {
        text: HELD_TOKEN,
        cells: 1,
        depth: 3,
    },
    Row {
        text: OLDER_TOKEN,
        cells: 2,
        depth: 2,
    },
    Row {
        text: MANY_TOKENS,
        cells: 10,
        depth: 3,
    },
    Row {
        text: INCREMENT,
        cells: 9,
        depth: 8,
    },
    Row {
        text: MIRROR,
        cells: 14,
        depth: 6,
    },
    Row {
        text: JOINED,
        cells: 3,
        depth: 2,
    },
];
