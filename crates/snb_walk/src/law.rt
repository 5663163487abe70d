//! Laws of walks. The functions do nothing; their contracts are the laws.

ghost use Rattle.snb_walk.specs.Walks.{OneWalk, SomeWalk, TargetsStood, WalksAreShort};

use snb_read_laws::{one_reply, some_reply};

/// In every walk each target stood among the targets of the answers just before it, and a walk has at most as many
/// steps as the chance has falls: the first chance divided by what it falls by, rounded up.
pub fn walks_are_lawful()
    ensures stood { TargetsStood }
    ensures short { WalksAreShort }
{}

/// On a sound graph there is exactly one walk of a query under a pick, a chance and words.
pub fn there_is_one_walk()
    ensures some { SomeWalk }
    ensures one { OneWalk }
{
    one_reply();
    some_reply();
}
