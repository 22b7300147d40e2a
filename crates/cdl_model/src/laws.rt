// A model as a network, and its net.
ghost use Rattle.std.specs.Prelude.{◌≡◌, ℕ, ℤ, List, [], Option, Some, option_map, map, slice_get};
ghost use Rattle.cdl_classes.specs.Rules.{broken_10};
ghost use Rattle.cdl_connect.specs.declared.net.Net.{Net};
ghost use Rattle.cdl_connect.specs.Nets.{network_of, element};
ghost use Rattle.cdl_connect.specs.WellFormed.{path_of};
ghost use Rattle.cdl_network.specs.Closed.{Closed, Shaped};
ghost use Rattle.cdl_network.specs.Dependence.{Determines, OnLoop};
ghost use Rattle.cdl_network.specs.FirstBroken.{Spot, FirstBroken, Accepted};
ghost use Rattle.cdl_network.specs.Lists.{In};
ghost use Rattle.cdl_network.specs.Planned.{AgreeAll, DirectOnly};
ghost use Rattle.cdl_network.specs.Renamed.{Renamed, rename_spot, back};
ghost use Rattle.cdl_network.specs.Rules.{is_source, is_sink, word_count};
ghost use Rattle.cdl_network.specs.Ticks.{Solves, Tick, Valuation, fault_of};
ghost use Rattle.cdl_params.specs.Kept.{Model};
ghost use Rattle.cdl_paths.specs.declared.path.Step.{Step};
ghost use Rattle.cdl_scopes.specs.Classes.{declared};
ghost use Rattle.cdl_walk.specs.Texts.{path_text};
ghost use Rattle.cdl_model.specs.Names.{ElementName};
ghost use Rattle.cdl_model.specs.Parts.{Unfolding, AreParts};
ghost use Rattle.cdl_model.specs.Networks.{network, paths, names};
ghost use Rattle.cdl_model.specs.Apart.{NamesApart, AreApart, IsUnfolded};
ghost use Rattle.cdl_model.specs.NetOf.{NetOf, instance_number, element_number, name_text};

/// Where C10 is not broken no name is declared twice in a class.
pub fn declared_names_are_apart()
    ensures { (w : Model) → broken_10 (declared w.files) ≡ [] → NamesApart w }
{}

/// The instances and elements of a model are one list each, and where no name is declared twice in a class each of them stands
/// once, behind what it is of.
pub fn parts_are_one()
    ensures instances { (w : Model) (u v : Unfolding) → AreParts w u → AreParts w v → u.instances ≡ v.instances }
    ensures elements { (w : Model) (u v : Unfolding) → AreParts w u → AreParts w v → u.elements ≡ v.elements }
    ensures once { (w : Model) (u : Unfolding) → NamesApart w → AreParts w u → AreApart u }
{}

/// A model is a well-formed network, in which inputs that aren't direct have no part in a meaning. So a model that breaks no rule
/// has exactly one solution for each list of ticks, with one fault or none.
pub fn model_is_a_network()
    ensures closed { (w : Model) (u : Unfolding) → IsUnfolded w u → Closed (network u) }
    ensures shaped { (w : Model) (u : Unfolding) → IsUnfolded w u → Shaped (network u) }
    ensures direct { (u : Unfolding) → DirectOnly (network u) }
    ensures solution { (w : Model) (u : Unfolding) (ts : List Tick) → IsUnfolded w u → Accepted (network u)
        → (vs : List (Valuation ElementName)) × Solves (network u) [] ts vs × ((ws : List (Valuation ElementName)) → Solves (network u) [] ts ws → AgreeAll (network u) ws vs) }
    ensures fault { (w : Model) (u : Unfolding) (ts : List Tick) (vs ws : List (Valuation ElementName)) → IsUnfolded w u → AgreeAll (network u) vs ws → fault_of (network u) [] ts vs ≡ fault_of (network u) [] ts ws }
{}

/// A model and its net are one network under two kinds of names; a number stands for the text of the name.
pub fn net_is_model()
    ensures renamed { (w : Model) (u : Unfolding) (n : Net) → IsUnfolded w u → NetOf u n → Renamed (instance_number u.instances) (element_number u.elements) (network u) (network_of n) }
    ensures path { (w : Model) (u : Unfolding) (n : Net) (p : List Step) → IsUnfolded w u → NetOf u n → In p (paths u.instances) → path_of n (instance_number u.instances p) ≡ path_text p }
    ensures name { (w : Model) (u : Unfolding) (n : Net) (x : ElementName) → IsUnfolded w u → NetOf u n → In x (names u.elements) → (element n (element_number u.elements x)).name ≡ name_text x }
{}

/// Rules and dependence are those of the net.
pub fn rules_are_the_nets()
    ensures source { (w : Model) (u : Unfolding) (n : Net) (p : List Step) (x : ElementName) → IsUnfolded w u → NetOf u n → In p (paths u.instances) → In x (names u.elements)
        → is_source (network_of n) (instance_number u.instances p) (element_number u.elements x) ≡ is_source (network u) p x }
    ensures sink { (w : Model) (u : Unfolding) (n : Net) (p : List Step) (x : ElementName) → IsUnfolded w u → NetOf u n → In p (paths u.instances) → In x (names u.elements)
        → is_sink (network_of n) (instance_number u.instances p) (element_number u.elements x) ≡ is_sink (network u) p x }
    ensures determines { (w : Model) (u : Unfolding) (n : Net) (s x : ElementName) → IsUnfolded w u → NetOf u n → Determines (network u) s x
        → Determines (network_of n) (element_number u.elements s) (element_number u.elements x) }
    ensures determined { (w : Model) (u : Unfolding) (n : Net) (a b : ℕ) → IsUnfolded w u → NetOf u n → Determines (network_of n) a b
        → (s x : ElementName) × (a ≡ element_number u.elements s) × (b ≡ element_number u.elements x) × Determines (network u) s x }
    ensures loop_there { (w : Model) (u : Unfolding) (n : Net) (x : ElementName) → IsUnfolded w u → NetOf u n → OnLoop (network u) x → OnLoop (network_of n) (element_number u.elements x) }
    ensures loop_back { (w : Model) (u : Unfolding) (n : Net) (x : ElementName) → IsUnfolded w u → NetOf u n → In x (names u.elements) → OnLoop (network_of n) (element_number u.elements x) → OnLoop (network u) x }
    ensures broken_there { (w : Model) (u : Unfolding) (n : Net) (p : Spot (List Step) ElementName) → IsUnfolded w u → NetOf u n → FirstBroken (network u) p
        → FirstBroken (network_of n) (rename_spot (instance_number u.instances) (element_number u.elements) p) }
    ensures broken_back { (w : Model) (u : Unfolding) (n : Net) (q : Spot ℕ ℕ) → IsUnfolded w u → NetOf u n → FirstBroken (network_of n) q
        → (p : Spot (List Step) ElementName) × (q ≡ rename_spot (instance_number u.instances) (element_number u.elements) p) × FirstBroken (network u) p }
    ensures accepted { (w : Model) (u : Unfolding) (n : Net) → IsUnfolded w u → NetOf u n → Accepted (network_of n) → Accepted (network u) }
    ensures words { (w : Model) (u : Unfolding) (n : Net) → IsUnfolded w u → NetOf u n → word_count (network_of n) ≡ word_count (network u) }
{}

/// A list of valuations of the net solves it exactly where it solves the model, with the same fault.
pub fn solutions_are_the_nets()
    ensures there { (w : Model) (u : Unfolding) (n : Net) (ts : List Tick) (vs : List (Valuation ℕ)) → IsUnfolded w u → NetOf u n → Solves (network u) [] ts (map (back (element_number u.elements)) vs) → Solves (network_of n) [] ts vs }
    ensures back { (w : Model) (u : Unfolding) (n : Net) (ts : List Tick) (vs : List (Valuation ℕ)) → IsUnfolded w u → NetOf u n → Solves (network_of n) [] ts vs → Solves (network u) [] ts (map (back (element_number u.elements)) vs) }
    ensures fault { (w : Model) (u : Unfolding) (n : Net) (ts : List Tick) (vs : List (Valuation ℕ)) → IsUnfolded w u → NetOf u n
        → fault_of (network_of n) [] ts vs ≡ option_map (λ f. (f.0, instance_number u.instances f.1)) (fault_of (network u) [] ts (map (back (element_number u.elements)) vs)) }
{}
