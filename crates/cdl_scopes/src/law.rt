// What holds of look-up.
ghost use Rattle.std.specs.Prelude.{◌≡◌, ◌↔◌, List, Some};
ghost use Rattle.cdl_scopes.specs.Classes.{Declared, Full};
ghost use Rattle.cdl_scopes.specs.Lookup.{Entity, lookup};
ghost use Rattle.cdl_scopes.specs.Scopes.{Means};
ghost use Rattle.cdl_scopes.specs.declared.lookup.Sought.{Sought as SoughtOf};

/// A law, which computes nothing: a name means exactly what the first scope outwards that has its first identifier leads to.
pub fn first_scope_counts()
    ensures { (ds : List Declared) (sought : SoughtOf) (outer name : Full) (e : Entity) → (lookup ds sought outer name ≡ Some e) ↔ Means ds sought outer name e }
{}
