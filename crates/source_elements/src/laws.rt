ghost use Rattle.std.specs.Prelude.{◌≡◌, ◌<◌, ℕ, Some, slice_get};
ghost use Rattle.syntax_tree.specs.declared.files.Component.{Component};
ghost use Rattle.source_elements.specs.Elements.{WrittenElement, written_in};

/// A law, which does nothing when it is called: the element around an element stands before it.
pub fn parents_stand_before()
    ensures { (component : Component) (e p : ℕ) (w : WrittenElement) → slice_get (written_in component) e ≡ Some w → w.parent ≡ Some p → p < e }
{}
