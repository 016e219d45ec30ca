ghost use Rattle.typed_tree.specs.declared.trees.TypedTree.{TypedTree};
ghost use Rattle.loop_check.specs.Purity.{SomeVerdict};

/// A law, which does nothing when it is called: each typed source has a first fault of purity, or none.
pub fn some_purity_verdict()
    ensures { (tree : TypedTree) → SomeVerdict tree }
{}
