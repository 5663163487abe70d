//! What tells the rows of a table apart.

ghost use Rattle.std.specs.Prelude.{◌↔◌, IsTrue};

use crate::table::Kind;

/// The key of a row that an insert adds: no two rows of a graph have the same.
#[derive(Clone, Copy)]
pub enum Key {
    /// A node's id among the nodes of its kind.
    Node { kind: Kind, id: u64 },
    /// The two persons of a friendship, which has no direction: the lower id is `low`.
    Knows { low: u64, high: u64 },
    /// The person and the post of a like.
    LikesPost { person: u64, post: u64 },
    /// The person and the comment of a like.
    LikesComment { person: u64, comment: u64 },
    /// The forum and the person of a membership.
    Member { forum: u64, person: u64 },
}

/// What can tell of a key whether it holds a row of it.
pub trait Held {
    ghost use Rattle.snb_schema.specs.declared.key.Key.{Key as AnyKey};

    /// A row of the key is held.
    ghost holds: { Self → AnyKey → Type 0 };

    /// Whether a row of the key is held.
    fn has(&self, key: &Key) -> bool
        ensures { IsTrue result ↔ holds self.now key.now };
}
