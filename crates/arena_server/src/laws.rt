// The law of order.
ghost use Rattle.arena_server.specs.Closed.{LawOfOrder};

/// The law of order: two requests of one sender for one arena are served or skipped in the order in which they were sent.
pub fn law_of_order()
    ensures { LawOfOrder }
{}
