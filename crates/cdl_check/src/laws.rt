// Laws of the first broken rule and the texts of its place.
ghost use Rattle.std.specs.Prelude.{◌≡◌, ℕ, List};
ghost use Rattle.cdl_network.specs.Closed.{Closed};
ghost use Rattle.cdl_network.specs.FirstBroken.{Accepted};
ghost use Rattle.cdl_network.specs.Lists.{In};
ghost use Rattle.cdl_network.specs.Network.{Network};
ghost use Rattle.cdl_network.specs.Renamed.{Renamed};
ghost use Rattle.cdl_check.specs.declared.fault.NetSpot.{NetSpot};
ghost use Rattle.cdl_check.specs.Broken.{BreaksFirst};

/// A network breaks at most one rule first, at one place, and where it does it isn't accepted.
pub fn one_rule_is_first<I, E>()
    ensures one { (n : Network I E) (instance_path : I → List ℕ) (element_path : E → List ℕ) (a b : ℕ) (s t : NetSpot) → BreaksFirst n instance_path element_path a s → BreaksFirst n instance_path element_path b t → (a ≡ b) × (s ≡ t) }
    ensures refused { (n : Network I E) (instance_path : I → List ℕ) (element_path : E → List ℕ) (a : ℕ) (s : NetSpot) → BreaksFirst n instance_path element_path a s → Accepted n → ⊥ }
{}

/// Under other names with the same texts the same rule is broken first, at the same place.
pub fn same_rule_is_first<I, E, J, F>()
    ensures { (a : I → J) (b : E → F) (m : Network I E) (n : Network J F) (instance_path : I → List ℕ) (element_path : E → List ℕ) (other_instance_path : J → List ℕ) (other_element_path : F → List ℕ) (rule : ℕ) (spot : NetSpot)
        → Closed m → Renamed a b m n → ((i : I) → In i m.instances → other_instance_path (a i) ≡ instance_path i) → ((x : E) → In x m.elements → other_element_path (b x) ≡ element_path x)
        → BreaksFirst n other_instance_path other_element_path rule spot → BreaksFirst m instance_path element_path rule spot }
{}
