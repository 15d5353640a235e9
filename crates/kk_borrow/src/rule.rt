use kk_syntax::Position;

/// A position that is owned if each of some others is.
#[derive(Drop)]
pub struct Rule {
    pub premises: Vec<Position>,
    pub conclusion: Position,
}
