ghost use Rattle.std.specs.Prelude.{◌≡◌, ◌∷◌, [], List, Option, codes, drop, map, take};
ghost use Rattle.slint_base.specs.declared.faults.Fault.{Fault};
ghost use Rattle.syntax_tree.specs.declared.expressions.Expr.{Expr};
ghost use Rattle.syntax_tree.specs.declared.items.Item.{Item};
ghost use Rattle.element_tables.specs.Members.{common};
ghost use Rattle.typed_tree.specs.declared.expressions.TypedExpr.{TypedExpr};
ghost use Rattle.typed_tree.specs.declared.outlines.Outline.{Outline};
ghost use Rattle.typed_tree.specs.declared.scopes.RowNames.{RowNames};
ghost use Rattle.typed_tree.specs.declared.scopes.Site.{Site};
ghost use Rattle.typed_tree.specs.declared.trees.TypedFor.{TypedFor};
ghost use Rattle.typed_tree.specs.declared.trees.TypedItem.{TypedItem};
ghost use Rattle.item_types.specs.Judging.{Told};
ghost use Rattle.item_types.specs.Typing.{BreaksCondition, BreaksItem, BreaksModel, TypesCondition, TypesItem, TypesModel, condition_in, item_in, model_in};

/// A law, which does nothing when it is called: an item has one typed form at most, and where it has one it breaks no rule.
pub fn one_item()
    ensures one { (outline : Outline) (here : Site) (rows : List RowNames) (item : Item) (x y : Option TypedItem) → TypesItem outline here rows item x → TypesItem outline here rows item y → x ≡ y }
    ensures no_fault { (outline : Outline) (here : Site) (rows : List RowNames) (item : Item) (x : Option TypedItem) (f : Fault) → TypesItem outline here rows item x → BreaksItem outline here rows item f → ⊥ }
{}

/// The same law of conditions.
pub fn one_condition()
    ensures one { (outline : Outline) (here : Site) (rows : List RowNames) (e : Expr) (x y : TypedExpr) → TypesCondition outline here rows e x → TypesCondition outline here rows e y → x ≡ y }
    ensures no_fault { (outline : Outline) (here : Site) (rows : List RowNames) (e : Expr) (x : TypedExpr) (f : Fault) → TypesCondition outline here rows e x → BreaksCondition outline here rows e f → ⊥ }
{}

/// The same law of models.
pub fn one_model()
    ensures one { (outline : Outline) (here : Site) (rows : List RowNames) (e : Expr) (x y : TypedFor) → TypesModel outline here rows e x → TypesModel outline here rows e y → x ≡ y }
    ensures no_fault { (outline : Outline) (here : Site) (rows : List RowNames) (e : Expr) (x : TypedFor) (f : Fault) → TypesModel outline here rows e x → BreaksModel outline here rows e f → ⊥ }
{}

/// A law, which does nothing when it is called: each item, condition and model has a typed form, or it breaks rules of which one is told
/// first.
pub fn some_verdict()
    ensures item { (outline : Outline) (here : Site) (rows : List RowNames) (item : Item) → Told (item_in outline here rows item) }
    ensures condition { (outline : Outline) (here : Site) (rows : List RowNames) (e : Expr) → Told (condition_in outline here rows e) }
    ensures model { (outline : Outline) (here : Site) (rows : List RowNames) (e : Expr) → Told (model_in outline here rows e) }
{}

/// A law, which does nothing when it is called: among the members of every built-in element but `Row` these are the names of the sizes
/// and of a grid cell's numbers, by their numbers.
pub fn grid_numbers()
    ensures sizes { map (λ row. row.0) (take 2 (drop 2 common)) ≡ codes "width" ∷ codes "height" ∷ [] }
    ensures grid { map (λ row. row.0) (take 4 (drop 15 common)) ≡ codes "row" ∷ codes "col" ∷ codes "rowspan" ∷ codes "colspan" ∷ [] }
{}
