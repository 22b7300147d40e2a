// Laws of traces. Each function is a law: it computes nothing, its contract is all.
ghost use Rattle.std.specs.Prelude.{◌≡◌, ℕ, ℤ, List, Option};
ghost use Rattle.cdl_network.specs.Closed.{Closed, Shaped};
ghost use Rattle.cdl_network.specs.FirstBroken.{Accepted};
ghost use Rattle.cdl_network.specs.Lists.{In};
ghost use Rattle.cdl_network.specs.Planned.{DirectOnly};
ghost use Rattle.cdl_network.specs.Renamed.{Renamed};
ghost use Rattle.cdl_table.specs.declared.column.Column.{Column};
ghost use Rattle.cdl_table.specs.IsTable.{IsTable, before_all};
ghost use Rattle.cdl_table.specs.TableRow.{TableRow};
ghost use Rattle.cdl_trace.specs.Columns.{Labelled};
ghost use Rattle.cdl_trace.specs.Ends.{Ends};
ghost use Rattle.cdl_trace.specs.Rising.{Rise};

/// Ticks end in one way at most, and print one text.
pub fn one_trace<I, E>()
    ensures { (s : Labelled I E) (rows : List TableRow) (f g : Option (ℤ × List ℕ)) (t u : List ℕ) → Ends s rows f t → Ends s rows g u → (f ≡ g) × (t ≡ u) }
{}

/// The ticks of each list of rows end so: a network that breaks no rule has a solution for them, and all its solutions have the
/// same fault and print the same text.
pub fn each_table_has_one_trace<I, E>()
    ensures { (s : Labelled I E) (rows : List TableRow) → Closed s.network → Shaped s.network → DirectOnly s.network → Accepted s.network
        → (fault : Option (ℤ × List ℕ)) × (text : List ℕ) × Ends s rows fault text }
{}

/// Under other names with the same texts the ticks end so as well.
pub fn same_trace<I, E, J, F>()
    ensures { (a : I → J) (b : E → F) (m : Labelled I E) (n : Labelled J F) (rows : List TableRow) (fault : Option (ℤ × List ℕ)) (text : List ℕ)
        → Closed m.network → Shaped m.network → DirectOnly m.network → Accepted m.network → Renamed a b m.network n.network
        → ((i : I) → In i m.network.instances → n.path (a i) ≡ m.path i) → ((x : E) → In x m.network.elements → n.name (b x) ≡ m.name x)
        → Ends n rows fault text → Ends m rows fault text }
{}

/// The times of a table rise.
pub fn times_rise()
    ensures { (columns : List Column) (records : List (List (List ℕ))) (rows : List TableRow) → IsTable columns records rows → Rise before_all rows }
{}
