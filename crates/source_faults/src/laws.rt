ghost use Rattle.std.specs.Prelude.{◌≡◌, ℕ, List, Option};
ghost use Rattle.slint_base.specs.declared.faults.Fault.{Fault};
ghost use Rattle.slint_base.specs.declared.rules.Rule.TheVariants.{FileMissing};
ghost use Rattle.import_resolver.specs.Loaded.{FileRow};
ghost use Rattle.loop_check.specs.Purity.{PurityFault};
ghost use Rattle.type_resolver.specs.Resolves.{IsBroken};
ghost use Rattle.typed_tree.specs.declared.trees.TypedTree.{TypedTree};

/// A law, which does nothing when it is called: no fault of the names and types of loaded files is one of a missing file.
pub fn no_fault_misses_a_file()
    ensures { (rows : List FileRow) (named : Option (List ℕ)) (f : Fault) → IsBroken rows named f → f.rule ≡ FileMissing → ⊥ }
{}

/// A law, which does nothing when it is called: no fault of the purity of a typed source is one of a missing file.
pub fn no_impurity_misses_a_file()
    ensures { (tree : TypedTree) (f : Fault) → PurityFault tree f → f.rule ≡ FileMissing → ⊥ }
{}
