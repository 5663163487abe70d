//! Laws of graphs.

ghost use Rattle.snb_graph_model.specs.Laws.{GraphsAreTheirRows, NewRowsAreGained};

/// Two graphs that hold the same rows are one.
pub fn graphs_are_their_rows()
    ensures { GraphsAreTheirRows }
{}

/// A graph can gain any rows that tables can have, where none fills a slot of the graph and no two fill
/// one.
pub fn new_rows_are_gained()
    ensures { NewRowsAreGained }
{}
