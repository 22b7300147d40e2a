// What holds of the grammar.
ghost use Rattle.std.specs.Prelude.{◌≡◌, List};
ghost use Rattle.cdl_source.specs.declared.place.Place.{Place as Where};
ghost use Rattle.cdl_lex.specs.TokenList.{TokenList};
ghost use Rattle.cdl_lex.specs.Texts.{AreTokens};
ghost use Rattle.cdl_tree.specs.Words.{Word};
ghost use Rattle.cdl_tree.specs.declared.class.Closing.{Closing};
ghost use Rattle.cdl_tree.specs.declared.class.FileTree.{FileTree as Tree};
ghost use Rattle.cdl_tree.specs.Grammar.{FileOf, Sentence};
ghost use Rattle.cdl_reading.specs.Reading.{word_of};
ghost use Rattle.cdl_parse.specs.Verdict.{Closes, Stuck, Misnamed};

/// A law, which computes nothing: a list of tokens has at most one tree.
#[tactic(auto, using(crate::proofs::Top::one_tree))]
pub fn one_tree()
    ensures { (w : Word) (t u : Tree) → Sentence w t → Sentence w u → t ≡ u }
{}

/// Laws, which compute nothing: a list of tokens is either a sentence with right identifiers behind `end`, or stuck (C7), or
/// misnamed (C8), never two of these; and a refusal has one place. The identifiers behind `end` of a text are one list.
pub fn one_verdict()
    ensures one_closings { (tokens : TokenList) → AreTokens tokens.bytes tokens.items → (tree other : Tree) (ends others : List Closing)
        → FileOf (word_of tokens) tree ends → FileOf (word_of tokens) other others → ends ≡ others }
    ensures closed_not_stuck { (tokens : TokenList) (tree : Tree) (place : Where) → Closes (word_of tokens) tree → Stuck tokens place → ⊥ }
    ensures closed_not_misnamed { (tokens : TokenList) (tree : Tree) (place : Where) → Closes (word_of tokens) tree → Misnamed tokens place → ⊥ }
    ensures stuck_not_misnamed { (tokens : TokenList) (place other : Where) → Stuck tokens place → Misnamed tokens other → ⊥ }
    ensures one_stuck { (tokens : TokenList) (place other : Where) → Stuck tokens place → Stuck tokens other → place ≡ other }
    ensures one_misnamed { (tokens : TokenList) (place other : Where) → Misnamed tokens place → Misnamed tokens other → place ≡ other }
{}
