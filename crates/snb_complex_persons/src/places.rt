//! Places, and organisations with the places where they stand.

ghost use Rattle.std.specs.Prelude.{◌≡◌, ◌∷◌, []};
ghost use Rattle.snb_graph_model.specs.Around.{places};
ghost use Rattle.snb_read_model.specs.ComplexReads.{HasItsPlace};
ghost use Rattle.snb_schema.specs.declared.table.Kind.TheVariants as kinds;
ghost use Rattle.snb_schema.specs.RowKeys.{node_key};
ghost use Rattle.snb_graph_model.specs.Graphs.{HasKey};
ghost use Rattle.snb_graph_model.specs.Soundness.{Sound};

use snb_graph::Graph;
use snb_graph_integrity::sound_graphs;
use snb_schema::{Organisation, Place, Table};

// The place of this id.
pub(crate) fn place(graph: &Graph, id: u64) -> &Place
    requires held { HasKey graph.now (node_key kinds.Place id) }
    ensures { places graph.now id ≡ result.now ∷ [] }
{
    graph.known();
    match graph.place(id) {
        Some(place) => place,
        None => unreachable!(),
    }
}

// The organisation of this id, and the place in which it stands.
pub(crate) fn located(graph: &Graph, id: u64) -> (&Organisation, &Place)
    requires sound { Sound graph.now }
    requires held { HasKey graph.now (node_key kinds.Organisation id) }
    ensures { HasItsPlace graph.now id result.0.now result.1.now }
{
    graph.known();
    sound_graphs();
    let Some(organisation) = graph.organisation(id) else {
        unreachable!()
    };
    let Some(there) = graph.one(Table::OrganisationIsLocatedInPlace, id) else {
        unreachable!()
    };
    (organisation, place(graph, there))
}
