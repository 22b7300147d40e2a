//! What parameters are worth, by the links that they need, and its laws. It has no code that runs: each function is a law, and its
//! contract is all.
#![tactic(auto)]

ghost use Rattle.std.specs.Prelude.{◌≡◌, ◌≤◌, ℕ, Bool, true, List, Ok, Err, IfOk};
ghost use Rattle.cdl_source.specs.declared.rules.TheConstants.{PARAMETERS_TOO_DEEP};
ghost use Rattle.cdl_source.specs.declared.limits.TheConstants.{MOST_LINKS};
ghost use Rattle.cdl_values.specs.declared.value.Array.{Array};
ghost use Rattle.cdl_tree.specs.declared.name.Name.{Name};
ghost use Rattle.cdl_tree.specs.declared.expr.Expr.{Expr};
ghost use Rattle.cdl_tree.specs.declared.class.Item.{Item};
ghost use Rattle.cdl_tree.specs.Formed.{is_formed};
ghost use Rattle.cdl_array.specs.Outcomes.{Outcome};
ghost use Rattle.cdl_scopes.specs.Classes.{Declared};
ghost use Rattle.cdl_paths.specs.declared.path.Local.{Local};
ghost use Rattle.cdl_worth.specs.Expressions.{eval};
ghost use Rattle.cdl_worth.specs.Links.{Lasts, Settles, Within};
ghost use Rattle.cdl_worth.specs.Texts.{HasTexts, HasUnits, are_formed};
ghost use Rattle.cdl_worth.specs.Units.{unit};
ghost use Rattle.cdl_worth.specs.Values.{Steps, dims, evaluate, present, value};

/// Laws: more links change nothing but an answer that is too deep.
pub fn more_links_change_nothing()
    ensures value { (ds : List Declared) (r : ℕ) (p : Steps) (n : List ℕ) → Lasts (λ d. value ds d r p n) }
    ensures expression { (ds : List Declared) (r : ℕ) (p : Steps) (locals : List Local) (e : Expr) → Lasts (λ d. evaluate ds d r p locals e) }
    ensures sizes { (ds : List Declared) (r : ℕ) (p : Steps) (x : Item) → Lasts (λ d. dims ds d r p x) }
    ensures presence { (ds : List Declared) (r : ℕ) (p : Steps) (x : Item) → Lasts (λ d. present ds d r p x) }
{}

/// Laws: a value that is found with some links is found with as many as there may be, and a rule that is broken then, but that of too
/// many links, is the one that is broken.
pub fn found_is_found()
    ensures value { (ds : List Declared) (d r : ℕ) (p : Steps) (n : List ℕ) (a : Array) → d ≤ MOST_LINKS → value ds d r p n ≡ Ok a → value ds MOST_LINKS r p n ≡ Ok a }
    ensures rule { (ds : List Declared) (d r : ℕ) (p : Steps) (n : List ℕ) (c : ℕ) → d ≤ MOST_LINKS → (c ≡ PARAMETERS_TOO_DEEP → ⊥) → value ds d r p n ≡ Err c → value ds MOST_LINKS r p n ≡ Err c }
{}

/// A law: each value needs so many links; with fewer it is too deep.
pub fn each_value_needs_its_links()
    ensures { (ds : List Declared) (d r : ℕ) (p : Steps) (n : List ℕ) (a : Array) → value ds d r p n ≡ Ok a → (k : ℕ) × (k ≤ d) × Settles (λ e. value ds e r p n) a k }
{}

/// Laws: an expression is worth no more than its names tell. What it is worth where no name has a value it is worth everywhere.
pub fn expressions_follow_their_names()
    ensures names { (f g : Name → Outcome Array) (e : Expr) → ((n : Name) → Within (f n) (g n)) → Within (eval f e) (eval g e) }
    ensures no_names { (f : Name → Outcome Array) (e : Expr) (a : Array) → eval (λ n. Err PARAMETERS_TOO_DEEP) e ≡ Ok a → eval f e ≡ Ok a }
{}

/// Laws: where the declared classes are formed, as those of texts are, each String in what a parameter, a formed expression or a unit is
/// worth is UTF-8, and a unit has at most 64 bytes.
pub fn texts_are_utf8()
    ensures value { (ds : List Declared) (d r : ℕ) (p : Steps) (n : List ℕ) → are_formed ds ≡ true → IfOk (value ds d r p n) HasTexts }
    ensures expression { (ds : List Declared) (d r : ℕ) (p : Steps) (locals : List Local) (e : Expr) → are_formed ds ≡ true → is_formed e ≡ true → IfOk (evaluate ds d r p locals e) HasTexts }
    ensures unit { (ds : List Declared) (d r : ℕ) (p : Steps) (n : List ℕ) → are_formed ds ≡ true → IfOk (unit ds d r p n) HasUnits }
{}
