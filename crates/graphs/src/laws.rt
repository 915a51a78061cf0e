//! Laws of topological orders.
ghost use Rattle.graphs.specs.Laws.{
  TablesAreOne,
  OrderedLeadToNoCycle,
  RanksFall,
  RanksAreLongest,
};

/// A table that is made along an order, with values of any type, is unique.
pub fn tables_are_one<X>()
    ensures { TablesAreOne X }
{}

/// No vertex of an order reaches a cycle.
pub fn ordered_vertices_lead_to_no_cycle()
    ensures { OrderedLeadToNoCycle }
{}

/// Ranks fall along edges.
pub fn ranks_fall()
    ensures { RanksFall }
{}

/// A rank is the number of edges of a longest chain.
pub fn ranks_are_longest_chains()
    ensures { RanksAreLongest }
{}
