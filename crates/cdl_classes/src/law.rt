// What holds of the declared classes of formed files.
ghost use Rattle.std.specs.Prelude.{◌≡◌, List, true};
ghost use Rattle.std.specs.List.{list_all};
ghost use Rattle.cdl_tree.specs.FormedFiles.{formed_class, formed_file};
ghost use Rattle.cdl_tree.specs.declared.class.FileTree.{FileTree as FileTreeOf};
ghost use Rattle.cdl_scopes.specs.Classes.{Declared, declared};

/// A law, which computes nothing: the declared classes of formed files are formed.
pub fn declared_classes_are_formed()
    ensures { (files : List FileTreeOf) → list_all formed_file files ≡ true → list_all (λ (d : Declared). formed_class d.tree) (declared files) ≡ true }
{}
