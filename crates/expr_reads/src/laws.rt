ghost use Rattle.expr_reads.specs.ItemsMayName.{ItemNamesAreExact, RepeatNamesAreExact};
ghost use Rattle.expr_reads.specs.MayName.{BlockNamesAreExact, ExprNamesAreExact, ValueNamesAreExact};

/// A law, which does nothing when it is called: what is listed of an expression is just what it may name.
pub fn names_are_exact()
    ensures { ExprNamesAreExact }
{}

/// A law, which does nothing when it is called: what is listed of a block, or of a value, is just what it may name.
pub fn names_of_blocks_are_exact()
    ensures blocks { BlockNamesAreExact }
    ensures values { ValueNamesAreExact }
{}

/// A law, which does nothing when it is called: what is listed of an item, or of a model or condition, is just what it may name.
pub fn names_of_items_are_exact()
    ensures items { ItemNamesAreExact }
    ensures repeats { RepeatNamesAreExact }
{}
