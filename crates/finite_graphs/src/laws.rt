ghost use Rattle.std.specs.Prelude.{ℕ, List, ◌↔◌, ◌⊎◌, ◌+◌, ◌≤◌};
ghost use Rattle.finite_graphs.specs.declared.edge.Edge.{Edge};
ghost use Rattle.finite_graphs.specs.Graphs.{Leads};
ghost use Rattle.finite_graphs.specs.Numbering.{Numbered};
ghost use Rattle.finite_graphs.specs.Walks.{At, IsRank, OnCircle, Reaches};

/// A law, which does nothing when it is called: of things that are numbered, here numbers again, one lies on a circle exactly where its
/// number does, and one reaches another exactly where their numbers do.
pub fn numbers_keep_circles()
    ensures circles { (related : List Edge) (things : List ℕ) (edges : List Edge) → Numbered (Leads related) things edges
        → (a i : ℕ) → At a things i → OnCircle (Leads related) a ↔ OnCircle (Leads edges) i }
    ensures ranks { (related : List Edge) (things : List ℕ) (edges : List Edge) → Numbered (Leads related) things edges
        → (a i r : ℕ) → At a things i → IsRank (Leads edges) i r → IsRank (Leads related) a r }
{}

/// A law, which does nothing when it is called: what lies on a circle has no longest walk, so where there are ranks no node does.
pub fn circles_have_no_rank()
    ensures { (edges : List Edge) (a n : ℕ) → OnCircle (Leads edges) a → IsRank (Leads edges) a n → ⊥ }
{}

/// A law, which does nothing when it is called: on a circle each node reaches each other, so all nodes of a circle lie on one.
pub fn circles_are_whole()
    ensures { (edges : List Edge) (a b : ℕ) → Leads edges a b → Reaches (Leads edges) b a → OnCircle (Leads edges) b }
{}

/// A law, which does nothing when it is called: whether a walk leads from one node to another is decided, and whether a node lies on a circle.
pub fn circles_are_decided()
    ensures walks { (edges : List Edge) (a b : ℕ) → Reaches (Leads edges) a b ⊎ (Reaches (Leads edges) a b → ⊥) }
    ensures circles { (edges : List Edge) (a : ℕ) → OnCircle (Leads edges) a ⊎ (OnCircle (Leads edges) a → ⊥) }
{}
