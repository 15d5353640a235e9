ghost use Rattle.rv_cells.specs.TokenMemory.{FollowTheirTokens};

/// The assembler code of a program with tokens whose functions are all lowered follows the machine with tokens: for each state at
/// which that is at a form it comes to a moment with the same events, at which its cells hold the heap and the tokens of that
/// state, and its frames hold the tokens that are on the chain, in this order. The bare form must have room for the tokens, and
/// each state of its run must be fit. It is a law, and does nothing.
pub fn lowered_tokened_programs_follow_their_tokens()
    ensures { FollowTheirTokens }
{}
