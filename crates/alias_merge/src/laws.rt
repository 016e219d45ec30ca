ghost use Rattle.std.specs.Prelude.{◌≡◌, ℕ, List, Option, Some, ◌⊎◌, length, slice_get};
ghost use Rattle.fault_order.specs.Order.{IsFirst, NoFault};
ghost use Rattle.slint_base.specs.declared.faults.Fault.{Fault as FaultValue};
ghost use Rattle.slint_base.specs.declared.rules.Rule.{Rule as RuleValue};
ghost use Rattle.slint_base.specs.declared.rules.Rule.TheVariants.{AliasLoop, FileMissing, TwoStateLists};
ghost use Rattle.finite_graphs.specs.declared.edge.Edge.{Edge};
ghost use Rattle.alias_merge.specs.declared.candidate.Candidate.{Candidate as CandidateValue};
ghost use Rattle.alias_merge.specs.declared.homes.Home.{Home as HomeValue};
ghost use Rattle.alias_merge.specs.declared.circle_faults.Spanned.{Spanned as SpannedValue};
ghost use Rattle.alias_merge.specs.CircleFaults.{CircleFault};
ghost use Rattle.alias_merge.specs.declared.rows.MemberRow.{MemberRow as RowValue};
ghost use Rattle.alias_merge.specs.ClassHomes.{AreHomes};
ghost use Rattle.alias_merge.specs.Homes.{homes_of};
ghost use Rattle.alias_merge.specs.Choosing.{AreChoices, HasNoCircle, IsChoice};
ghost use Rattle.alias_merge.specs.Numbers.{count, number_of};
ghost use Rattle.alias_merge.specs.Rows.{member_rows};
ghost use Rattle.expanded_tree.specs.declared.members.ExpandedMember.{ExpandedMember as MemberValue};
ghost use Rattle.expanded_tree.specs.Trees.{ExpandedValue};
ghost use Rattle.alias_merge.specs.ClassesValues.{ClassesValue};
ghost use Rattle.alias_merge.specs.Merged.{AreClasses, Breaks, IsMerged};

/// Laws, which do nothing when they are called: of the candidates of a class there is one choice, so classes have one list of choices.
pub fn one_choice()
    ensures of_class { (edges : List Edge) (cs : List CandidateValue) (a b : Option CandidateValue) → IsChoice edges cs a → IsChoice edges cs b → a ≡ b }
    ensures of_all { (edges : List Edge) (labels : List ℕ) (homes : List (Option HomeValue)) (cs : List CandidateValue) (xs ys : List (Option CandidateValue))
        → AreChoices edges labels homes cs xs → AreChoices edges labels homes cs ys → xs ≡ ys }
{}

/// A law, which does nothing when it is called: where links lead in no circle there is a choice of any candidates.
pub fn some_choice()
    ensures { (edges : List Edge) → HasNoCircle edges → (cs : List CandidateValue) → (choice : Option CandidateValue) × IsChoice edges cs choice }
{}

/// A law, which does nothing when it is called: an expanded tree has one list of classes.
pub fn one_merge()
    ensures { (e : ExpandedValue) (a b : ClassesValue) → AreClasses e a → AreClasses e b → a ≡ b }
{}

/// A law, which does nothing when it is called: of edges with stretches one is told first as lying on a circle, or none lies on one.
pub fn some_circle_verdict()
    ensures { (rule : RuleValue) (edges : List SpannedValue) → ((f : FaultValue) × IsFirst (CircleFault rule edges) f) ⊎ NoFault (CircleFault rule edges) }
{}

/// A law, which does nothing when it is called: an expanded tree has classes, or a first fault of links or of changes.
pub fn some_merge()
    ensures { (e : ExpandedValue) → ((c : ClassesValue) × IsMerged e c) ⊎ ((f : FaultValue) × Breaks e f) }
{}

/// A law, which does nothing when it is called: of the faults of links and of changes one is told.
pub fn one_merge_fault()
    ensures { (e : ExpandedValue) (f g : FaultValue) → Breaks e f → Breaks e g → f ≡ g }
{}

/// A law, which does nothing when it is called: what has classes has no fault of links or of changes.
pub fn merged_or_broken()
    ensures { (e : ExpandedValue) (c : ClassesValue) (f : FaultValue) → IsMerged e c → Breaks e f → ⊥ }
{}

/// A law, which does nothing when it is called: faults of links and of changes are of two rules, neither of which is that of a missing file.
pub fn no_merge_fault_misses_a_file()
    ensures rules { (e : ExpandedValue) (f : FaultValue) → Breaks e f → (f.rule ≡ AliasLoop) ⊎ (f.rule ≡ TwoStateLists) }
    ensures no_file { (e : ExpandedValue) (f : FaultValue) → Breaks e f → f.rule ≡ FileMissing → ⊥ }
{}

/// A law, which does nothing when it is called: the homes that are found of labels and rows are those of the classes' members.
pub fn homes_are_of_classes()
    ensures { (labels : List ℕ) (rows : List RowValue) → AreHomes labels rows (homes_of labels rows) }
{}

/// A law, which does nothing when it is called: the row of a member stands at the member's number, so no two members have one number; and
/// there are as many rows as members.
pub fn rows_are_numbered()
    ensures numbered { (e : ExpandedValue) (m : MemberValue) (n : ℕ) → number_of e m ≡ Some n → (r : RowValue) × (slice_get (member_rows e) n ≡ Some r) × (r.member ≡ m) }
    ensures counted { (e : ExpandedValue) → length (member_rows e) ≡ count e }
{}
