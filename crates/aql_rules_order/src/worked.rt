//! Orders worked out.

ghost use Rattle.aql_rules_order.specs.Worked.{WorkedOrders};

/// The permutations of three things and of four, by the definition.
pub fn worked_orders()
    ensures { WorkedOrders }
{}
