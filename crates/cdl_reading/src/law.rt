// What holds of the words that texts are.
ghost use Rattle.std.specs.Prelude.{◌≡◌, ℕ, true, List};
ghost use Rattle.cdl_source.specs.declared.place.TokenSort.TheVariants.{Str};
ghost use Rattle.cdl_lex.specs.Spellings.{Spelling};
ghost use Rattle.cdl_lex.specs.TokenList.{TokenList};
ghost use Rattle.cdl_lex.specs.Texts.{AreTokens};
ghost use Rattle.cdl_tree.specs.Literals.{IsString};
ghost use Rattle.cdl_tree.specs.Spelled.{are_spelled};
ghost use Rattle.cdl_reading.specs.Reading.{word_of};

/// A law, which computes nothing: the tokens of a text are spelled as the words of the grammar want them.
pub fn spelled_words()
    ensures { (tokens : TokenList) → AreTokens tokens.bytes tokens.items → are_spelled (word_of tokens) ≡ true }
{}

/// Laws, which compute nothing: what is spelled as a string means a value as one, and only that does. By `cdl_tree::one_value` it is the
/// only value.
pub fn strings_mean()
    ensures some { (text : List ℕ) → Spelling text Str → (value : List ℕ) × IsString text value }
    ensures only { (text value : List ℕ) → IsString text value → Spelling text Str }
{}
