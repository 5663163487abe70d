//! Comments with higher ids than the comments to which they reply.

ghost use Rattle.std.specs.Prelude.{◌↔◌, IsTrue};
ghost use Rattle.snb_graph_integrity.specs.Rising.{IsRising};

use snb_graph_tables::Tables;
use snb_schema::Table;

// Whether each comment that replies to a comment has a higher id than that one.
pub(crate) fn is_rising(tables: &Tables) -> bool
    ensures { IsTrue result ↔ IsRising tables.now.rows }
{
    for (key, parent) in tables.edges_of(Table::CommentReplyOfComment) {
        if key.first <= *parent {
            return false;
        }
    }
    true
}
