// What holds of literals and of trees.
ghost use Rattle.std.specs.Prelude.{◌≡◌, ℕ, true, List};
ghost use Rattle.cdl_tree.specs.declared.expr.Expr.{Expr};
ghost use Rattle.cdl_tree.specs.Literals.{IsString};
ghost use Rattle.cdl_tree.specs.Proper.{is_proper};
ghost use Rattle.cdl_tree.specs.Formed.{is_formed};

/// A law, which computes nothing: a text means at most one value as a string.
pub fn one_value()
    ensures { (text s t : List ℕ) → IsString text s → IsString text t → t ≡ s }
{}

/// A law, which computes nothing: a formed expression is proper.
#[tactic(auto, using(crate::proofs::Evaluated::formed_proper))]
pub fn formed_is_proper()
    ensures { (e : Expr) → is_formed e ≡ true → is_proper e ≡ true }
{}
