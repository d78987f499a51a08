//! Laws of graphs. Each function does nothing: its contract is the law.

ghost use Rattle.heylo_graph.specs.Laws.{TreesStandOnce};

/// States that two nodes with the same tree are one.
pub fn trees_stand_once()
    ensures { TreesStandOnce }
{}
