// What holds of the splittings of texts.
ghost use Rattle.std.specs.Prelude.{◌≡◌, ◌⊎◌, ℕ, List};
ghost use Rattle.cdl_source.specs.declared.place.Token.{Token};
ghost use Rattle.cdl_lex.specs.Spellings.{Bytes};
ghost use Rattle.cdl_lex.specs.Splits.{Splits};
ghost use Rattle.cdl_lex.specs.Rules.{IsNoToken, BreaksNone};
ghost use Rattle.cdl_lex.specs.Texts.{AreTokens};

/// Laws, which compute nothing: each text has either a splitting or a first byte at which none goes on, never both, and only one of it.
#[tactic(auto, using(crate::proofs::Continues::splits_once))]
pub fn one_splitting()
    ensures either { (bytes : Bytes) → ((ts : List Token) × Splits bytes ts) ⊎ ((at : ℕ) × IsNoToken bytes at) }
    ensures one { (bytes : Bytes) (ts us : List Token) → Splits bytes ts → Splits bytes us → us ≡ ts }
    ensures one_place { (bytes : Bytes) (at to : ℕ) → IsNoToken bytes at → IsNoToken bytes to → at ≡ to }
    ensures not_both { (bytes : Bytes) (ts : List Token) (at : ℕ) → Splits bytes ts → IsNoToken bytes at → ⊥ }
{}

/// A law, which computes nothing: where a text breaks no rule, what it splits into are its tokens, with all that `lex` tells of them.
#[tactic(auto, using(crate::proofs::Unbroken::unbroken_tokens))]
pub fn unbroken_tokens()
    ensures { (bytes : Bytes) (ts : List Token) → BreaksNone bytes → Splits bytes ts → AreTokens bytes ts }
{}
