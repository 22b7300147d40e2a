// That a model has one expansion or one first broken rule.
ghost use Rattle.std.specs.Prelude.{◌≡◌, ℕ, List};
ghost use Rattle.cdl_source.specs.declared.place.Place.{Place};
ghost use Rattle.cdl_params.specs.Kept.{Model};
ghost use Rattle.cdl_paths.specs.declared.path.Step.{Step};
ghost use Rattle.cdl_model.specs.Parts.{Unfolding};
ghost use Rattle.cdl_expand.specs.Expanded.{BreaksInstance, BreaksStatement, HasInstances, IsExpanded};

use cdl_model::parts_are_one;

/// A model has at most one expansion.
pub fn one_expansion()
    ensures one { (w : Model) (u v : Unfolding) → IsExpanded w u → IsExpanded w v → u ≡ v }
{
    parts_are_one();
}

/// A model breaks at most one rule first, in one place; and none where it has instances, or an expansion.
pub fn one_refusal()
    ensures instance { (w : Model) (r s : ℕ) (p q : List Step) → BreaksInstance w r p → BreaksInstance w s q → (r ≡ s) × (p ≡ q) }
    ensures statement { (w : Model) (r s : ℕ) (p q : List Step) (a b : Place) → BreaksStatement w r p a → BreaksStatement w s q b → (r ≡ s) × (p ≡ q) × (a ≡ b) }
    ensures has_instances { (w : Model) (r : ℕ) (p : List Step) → HasInstances w → BreaksInstance w r p → ⊥ }
    ensures is_expanded { (w : Model) (u : Unfolding) (r : ℕ) (p : List Step) (a : Place) → IsExpanded w u → BreaksStatement w r p a → ⊥ }
{}
