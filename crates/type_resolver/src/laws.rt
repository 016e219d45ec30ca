ghost use Rattle.std.specs.Prelude.{◌≡◌, ℕ, List, Option};
ghost use Rattle.slint_base.specs.declared.faults.Fault.{Fault};
ghost use Rattle.typed_tree.specs.declared.trees.TypedTree.{TypedTree};
ghost use Rattle.import_resolver.specs.Loaded.{FileRow};
ghost use Rattle.type_resolver.specs.Resolves.{IsBroken, IsResolved, SomeResolution};

use declaration_rules::some_first_declaration_fault;
use item_types::{one_condition, one_item, one_model, some_verdict};
use source_elements::parents_stand_before;
use source_outline::some_first_endless_link;

/// A law, which does nothing when it is called: a source has one tree at most, one fault at most is told, and not both.
pub fn one_resolution()
    ensures one_tree { (rows : List FileRow) (named : Option (List ℕ)) (t u : TypedTree) → IsResolved rows named t → IsResolved rows named u → t ≡ u }
    ensures one_fault { (rows : List FileRow) (named : Option (List ℕ)) (f g : Fault) → IsBroken rows named f → IsBroken rows named g → f ≡ g }
    ensures not_both { (rows : List FileRow) (named : Option (List ℕ)) (t : TypedTree) (f : Fault) → IsResolved rows named t → IsBroken rows named f → ⊥ }
{
    one_item();
    one_condition();
    one_model();
}

/// A law, which does nothing when it is called: each source has a tree, or a fault is told.
pub fn some_resolution()
    ensures { (rows : List FileRow) (named : Option (List ℕ)) → SomeResolution rows named }
{
    one_item();
    one_condition();
    one_model();
    some_verdict();
    parents_stand_before();
    some_first_declaration_fault();
    some_first_endless_link();
}
