// What holds of the nets of the examples.
ghost use Rattle.std.specs.Prelude.{◌≡◌, ℕ, List, []};
ghost use Rattle.cdl_network.specs.Dependence.{NoLoop};
ghost use Rattle.cdl_network.specs.Planned.{AgreeAll};
ghost use Rattle.cdl_network.specs.Ticks.{Solves, Tick, Valuation};
ghost use Rattle.cdl_connect.specs.Faults.{IsUnbroken};
ghost use Rattle.cdl_connect.specs.Nets.{network_of};
ghost use Rattle.cdl_connect.specs.WellFormed.{IsWellFormed};
ghost use Rattle.cxf_graph.specs.Document.{document};
ghost use Rattle.cxf_graph.specs.Reading.{IsGraphOf};
ghost use Rattle.cxf_graph.specs.Written.{graph_of};
ghost use Rattle.cdl_net_examples.specs.Graph.{negation_graph};
ghost use Rattle.cdl_net_examples.specs.Negation.{negation, with_a_gap, with_a_point, with_a_wire_to_nowhere};
ghost use Rattle.cdl_net_examples.specs.Pair.{pair};

/// A law: the net of a block that negates its input is well formed and breaks no rule of wires and elements, its graph is the one
/// that is expected, and its document is one of that graph.
pub fn negation_is_well_formed()
    ensures well_formed { IsWellFormed negation }
    ensures unbroken { IsUnbroken negation }
    ensures graph { graph_of negation ≡ negation_graph }
    ensures read_back { IsGraphOf (document (graph_of negation)) (graph_of negation) }
{}

/// A law: nothing in the net of a block that negates its input is on a loop, so exactly one list of valuations solves it for each
/// list of ticks.
pub fn negation_has_one_solution()
    ensures no_loop { NoLoop (network_of negation) }
    ensures solution { (ts : List Tick) → (vs : List (Valuation ℕ)) × Solves (network_of negation) [] ts vs × ((ws : List (Valuation ℕ)) → Solves (network_of negation) [] ts ws → AgreeAll (network_of negation) ws vs) }
{}

/// A law: the net of a block that negates two inputs, with arrays of connectors and of parts, is well formed and breaks no rule of
/// wires and elements, and its document is one of its graph.
pub fn pair_is_well_formed()
    ensures well_formed { IsWellFormed pair }
    ensures unbroken { IsUnbroken pair }
    ensures read_back { IsGraphOf (document (graph_of pair)) (graph_of pair) }
{}

/// A law: a net is not well formed where a wire ends at an element that it does not have, where a path ends with a point, or where
/// an array has a second item and no first.
pub fn spoiled_are_not()
    ensures wire { IsWellFormed with_a_wire_to_nowhere → ⊥ }
    ensures path { IsWellFormed with_a_point → ⊥ }
    ensures array { IsWellFormed with_a_gap → ⊥ }
{}
