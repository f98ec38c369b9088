//! The laws of heirs, joins and needs. Each is the contract of a function without a body.
ghost use Rattle.hb_order.specs.Allowed.{JoinsAreUnique};
ghost use Rattle.hb_order.specs.Needs.{HeirsNeedLess, LaterGivingsKeepNeeds, LaterStructuresKeepNeeds};

/// Where the structures were all allowed, two of them with a common heir have exactly one join.
pub fn joins_are_unique()
    ensures { JoinsAreUnique }
{}

/// What takes a structure takes each structure that it is an heir of, and each need for the second
/// is none or has the need for the first as an heir.
pub fn heirs_need_less()
    ensures { HeirsNeedLess }
{}

/// An allowed later structure changes no need that was there.
pub fn later_structures_keep_needs()
    ensures { LaterStructuresKeepNeeds }
{}

/// A later giving changes no need that was there.
pub fn later_givings_keep_needs()
    ensures { LaterGivingsKeepNeeds }
{}
