ghost use Rattle.std.specs.Prelude.{◌≡◌};
ghost use Rattle.slint_base.specs.declared.faults.Fault.{Fault};
ghost use Rattle.typed_tree.specs.Scopes.{ScopeValue};
ghost use Rattle.expr_rules.specs.declared.judged.Judged.{Judged};
ghost use Rattle.expr_types.specs.Judgement.{ComesTo, FaultIn};
ghost use Rattle.expr_types.specs.Nodes.{Node};
ghost use Rattle.expr_types.specs.Typing.{SomeOutcome, typing};

/// A law, which does nothing when it is called: in a scope a node comes to one thing, and where it comes to something it breaks no
/// rule.
pub fn one_thing_or_faults()
    ensures one_thing { (s : ScopeValue) (n : Node) (x y : Judged) → ComesTo Node Judged Fault (typing s) n x → ComesTo Node Judged Fault (typing s) n y → x ≡ y }
    ensures no_fault { (s : ScopeValue) (n : Node) (x : Judged) (f : Fault) → ComesTo Node Judged Fault (typing s) n x → FaultIn Node Judged Fault (typing s) n f → ⊥ }
{}

/// A law, which does nothing when it is called: in a scope each node comes to something, or it breaks rules of which one is told first.
pub fn some_outcome()
    ensures { (s : ScopeValue) (n : Node) → SomeOutcome s n }
{}
