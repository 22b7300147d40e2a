//! Networks under names of any kind: their rules, the equations of their ticks, and the laws of both. It has no code that runs:
//! each function is a law, and its contract is all.
#![tactic(auto)]

ghost use Rattle.std.specs.Prelude.{◌≡◌, ◌↔◌, ℕ, ℤ, List, [], ◌∷◌, ◌++◌, map, Some, None, Option, option_map, Bool, true};
ghost use Rattle.cdl_values.specs.History.{tick};
ghost use Rattle.cdl_network.specs.Lists.{In, Apart, Tells, has_some, number};
ghost use Rattle.cdl_network.specs.Network.{Network};
ghost use Rattle.cdl_network.specs.Rules.{word_count};
ghost use Rattle.cdl_network.specs.Dependence.{Origin, inputs_of, direct_of, OnLoop};
ghost use Rattle.cdl_network.specs.FirstBroken.{Spot, FirstBroken, Accepted};
ghost use Rattle.cdl_network.specs.Ticks.{history, words, Valuation, Tick, Seen, Meets, Solves, Stated, Runs, answer, first_fault, fault_of, after};
ghost use Rattle.cdl_network.specs.Closed.{Closed, Shaped};
ghost use Rattle.cdl_network.specs.Planned.{AllFit, HasMeanings, DirectOnly, Planned, Origins, Fits, AgreeAll};
ghost use Rattle.cdl_network.specs.Renamed.{Renamed, rename_spot, back};

/// A network that breaks no rule has exactly one solution for each list of ticks. No order is named, and no state.
pub fn accepted_has_one<I, E>()
    ensures { (n : Network I E) (ts : List Tick) → Closed n → Shaped n → DirectOnly n → Accepted n
        → (vs : List (Valuation E)) × Solves n [] ts vs × ((ws : List (Valuation E)) → Solves n [] ts ws → AgreeAll n ws vs) }
{}

/// A network in which each element has one origin and walks end has one solution for each list of ticks; solutions that agree
/// have one fault.
pub fn one_solution<I, E>()
    ensures some { (n : Network I E) (origin : E → Origin I E) (top : ℕ) (ts : List Tick) → Closed n → Planned n top → Origins n origin → (vs : List (Valuation E)) × Solves n [] ts vs }
    ensures only { (n : Network I E) (top : ℕ) (ts : List Tick) (vs ws : List (Valuation E)) → Closed n → Planned n top → Solves n [] ts vs → Solves n [] ts ws → AgreeAll n vs ws }
    ensures fault { (n : Network I E) (ts : List Tick) (vs ws : List (Valuation E)) → Closed n → AgreeAll n vs ws → fault_of n [] ts vs ≡ fault_of n [] ts ws }
{}

/// The recursion over ticks says what is said of each tick.
pub fn ticks_as_stated<I, E>()
    ensures { (n : Network I E) (ts : List Tick) (vs : List (Valuation E)) → Solves n [] ts vs ↔ Stated n ts vs }
{}

/// What one more tick does. A run without a fault goes on by a tick that meets its equations; a fault of it is the fault of
/// every solution. An answer rests on direct inputs alone, each history grows by the tick, at each tick of it there is a
/// meaning, and at a tick without a fault each element has a value.
pub fn one_tick_more<I, E>()
    ensures on { (n : Network I E) (ts : List Tick) (vs : List (Valuation E)) (t : Tick) (v : Valuation E) → Runs n ts vs → Meets n (after [] ts vs) t v → first_fault n (after [] ts vs) t v ≡ None → Runs n (ts ++ t ∷ []) (vs ++ v ∷ []) }
    ensures off { (n : Network I E) (top : ℕ) (ts : List Tick) (vs : List (Valuation E)) (t : Tick) (v : Valuation E) (i : I) → Closed n → Planned n top → Runs n ts vs → Meets n (after [] ts vs) t v → first_fault n (after [] ts vs) t v ≡ Some i → (ws : List (Valuation E)) → Solves n [] (ts ++ t ∷ []) ws → fault_of n [] (ts ++ t ∷ []) ws ≡ Some (t.time, i) }
    ensures direct_only { (n : Network I E) (past : List (Seen E)) (now : ℤ) (v w : Valuation E) (i : I) → DirectOnly n → In i n.instances → n.elementary i ≡ true → ((s : E) → In s (direct_of n i) → v s ≡ w s) → answer n past now v i ≡ answer n past now w i }
    ensures history { (n : Network I E) (ts : List Tick) (vs : List (Valuation E)) (t : Tick) (v : Valuation E) (i : I) → Runs n ts vs → history n (after [] (ts ++ t ∷ []) (vs ++ v ∷ [])) i ≡ tick t.time (words v (inputs_of n i)) ∷ history n (after [] ts vs) i }
    ensures meanings { (n : Network I E) (top : ℕ) (ts : List Tick) (vs : List (Valuation E)) (i : I) → Closed n → Planned n top → AllFit n ts → Runs n ts vs → In i n.instances → n.elementary i ≡ true → HasMeanings (n.meaning i) (history n (after [] ts vs) i) }
    ensures calm { (n : Network I E) (top : ℕ) (past : List (Seen E)) (t : Tick) (v : Valuation E) → Closed n → Planned n top → Fits n t → Meets n past t v → first_fault n past t v ≡ None → (x : E) → In x n.elements → has_some (v x) ≡ true }
{}

/// The rules of a network, its loops and the number of its words are those of the same network under other names.
pub fn one_rule<I, E, J, F>()
    ensures there { (a : I → J) (b : E → F) (m : Network I E) (n : Network J F) (p : Spot I E) → Closed m → Renamed a b m n → FirstBroken m p → FirstBroken n (rename_spot a b p) }
    ensures back { (a : I → J) (b : E → F) (m : Network I E) (n : Network J F) (q : Spot J F) → Closed m → Renamed a b m n → FirstBroken n q → (p : Spot I E) × (q ≡ rename_spot a b p) × FirstBroken m p }
    ensures accepted { (a : I → J) (b : E → F) (m : Network I E) (n : Network J F) → Closed m → Renamed a b m n → Accepted m ↔ Accepted n }
    ensures loop_there { (a : I → J) (b : E → F) (m : Network I E) (n : Network J F) (x : E) → Closed m → Renamed a b m n → OnLoop m x → OnLoop n (b x) }
    ensures loop_back { (a : I → J) (b : E → F) (m : Network I E) (n : Network J F) (x : E) → Closed m → Renamed a b m n → In x m.elements → OnLoop n (b x) → OnLoop m x }
    ensures words { (a : I → J) (b : E → F) (m : Network I E) (n : Network J F) → Renamed a b m n → word_count n ≡ word_count m }
{}

/// A network that is well formed under some names is so under others whose tests tell.
pub fn well_formed_there<I, E, J, F>()
    ensures closed { (a : I → J) (b : E → F) (m : Network I E) (n : Network J F) → Closed m → Renamed a b m n → Closed n }
    ensures shaped { (a : I → J) (b : E → F) (m : Network I E) (n : Network J F) → Closed m → Shaped m → Renamed a b m n → Tells n.same_instance → Tells n.same_element → Shaped n }
    ensures planned { (a : I → J) (b : E → F) (m : Network I E) (n : Network J F) (top : ℕ) → Closed m → Renamed a b m n → Planned n top → Planned m top }
{}

/// A solution under the new names is one under the old, and the other way round, with the same fault.
pub fn same_solution<I, E, J, F>()
    ensures back { (a : I → J) (b : E → F) (m : Network I E) (n : Network J F) (ts : List Tick) (us : List (Valuation F)) → Closed m → Renamed a b m n → Solves n [] ts us → Solves m [] ts (map (back b) us) }
    ensures there { (a : I → J) (b : E → F) (m : Network I E) (n : Network J F) (ts : List Tick) (us : List (Valuation F)) → Closed m → Renamed a b m n → Solves m [] ts (map (back b) us) → Solves n [] ts us }
    ensures fault { (a : I → J) (b : E → F) (m : Network I E) (n : Network J F) (ts : List Tick) (us : List (Valuation F)) → Closed m → Renamed a b m n → fault_of n [] ts us ≡ option_map (λ p. (p.0, a p.1)) (fault_of m [] ts (map (back b) us)) }
{}
