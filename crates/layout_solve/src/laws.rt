ghost use Rattle.layout_solve.specs.Sizes.{SharesOneWay};

/// A law, which does nothing when it is called: at most one list of sizes shares a room among items by the rules.
pub fn room_is_shared_one_way()
    ensures { SharesOneWay }
{}
