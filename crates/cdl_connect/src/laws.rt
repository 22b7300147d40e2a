// The network of a net, and what the check of it gives.
ghost use Rattle.std.specs.Prelude.{◌≡◌, ◌<◌, ℕ, List, [], length, true, Some, None};
ghost use Rattle.cdl_network.specs.Closed.{Closed, Shaped};
ghost use Rattle.cdl_network.specs.Dependence.{NoLoop};
ghost use Rattle.cdl_network.specs.FirstBroken.{FirstBroken, Spot};
ghost use Rattle.cdl_network.specs.Planned.{AgreeAll, DirectOnly};
ghost use Rattle.cdl_network.specs.Rules.{arrivals, first_wire, first_element, is_wanted};
ghost use Rattle.cdl_network.specs.Ticks.{Solves, Tick, Valuation};
ghost use Rattle.cdl_connect.specs.declared.net.Net.{Net};
ghost use Rattle.cdl_connect.specs.declared.faults.NetFault.{NetFault};
ghost use Rattle.cdl_connect.specs.Nets.{network_of};
ghost use Rattle.cdl_connect.specs.WellFormed.{AreOfKinds, IsIndexed, IsWellFormed};
ghost use Rattle.cdl_connect.specs.Faults.{IsChecked, IsFault, IsSpotOf, IsUnbroken};

/// The network of a net whose numbers are good is well formed, and the numbers of a well-formed net are good.
pub fn net_is_a_network()
    ensures indexed { (n : Net) → IsWellFormed n → IsIndexed n }
    ensures closed { (n : Net) → IsIndexed n → Closed (network_of n) }
    ensures shaped { (n : Net) → IsIndexed n → Shaped (network_of n) }
{}

/// A fault by its place is the first broken rule of the network, and where none is broken no wire and no element breaks one.
pub fn first_by_place()
    ensures fault { (n : Net) (f : NetFault) (p : Spot ℕ ℕ) → IsFault n f → IsSpotOf n f p → FirstBroken (network_of n) p }
    ensures unbroken { (n : Net) → IsUnbroken n → (first_wire (network_of n) ≡ None) × (first_element (network_of n) ≡ None) }
{}

/// Inputs that aren't direct have no part in the meanings of a net in which each elementary instance is one of its kind.
pub fn only_direct_inputs_count()
    ensures { (n : Net) → IsIndexed n → AreOfKinds n → DirectOnly (network_of n) }
{}

/// In a checked net exactly one wire ends at each sink; and where nothing is on a loop, and each elementary instance is one of
/// its kind, exactly one list of valuations solves it for each list of ticks.
pub fn checked_has_one()
    ensures source { (n : Net) (x : ℕ) → IsChecked n → x < length n.elements → is_wanted (network_of n) x ≡ true → arrivals (network_of n) x ≡ 1 }
    ensures solution { (n : Net) (ts : List Tick) → IsChecked n → AreOfKinds n → NoLoop (network_of n)
        → (vs : List (Valuation ℕ)) × Solves (network_of n) [] ts vs × ((ws : List (Valuation ℕ)) → Solves (network_of n) [] ts ws → AgreeAll (network_of n) ws vs) }
{}
