//! The law of tokens, as the contract of a function that does nothing, so that the check proves it:
//! the walk over the bytes finds what a reader does.

ghost use Rattle.std.specs.Prelude.{◌≡◌, ℕ, List};
ghost use Rattle.model_tokens.specs.Tokens.{Placed};
ghost use Rattle.model_tokens.specs.Lexing.{tokens_of};
ghost use Rattle.model_tokens.specs.Cuts.{AreCut};

/// A text is cut into its tokens, with gaps of blanks and comments before, between and behind them,
/// and it can be cut in no other way.
pub fn law_of_tokens()
    ensures cut { (text : List ℕ) → AreCut 0 text (tokens_of text) }
    ensures only { (text : List ℕ) (tokens : List Placed) → AreCut 0 text tokens → tokens ≡ tokens_of text }
{}
