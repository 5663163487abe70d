//! Searches in keys that are in order.

ghost use Rattle.std.specs.Prelude.{◌≡◌, true};
ghost use Rattle.std.specs.Ordering.{is_lt};
ghost use Rattle.std.specs.List.Sorted.{IsPartitionedBy};
ghost use Rattle.snb_graph_maps.specs.Parted.{PartsAt, falls};

use crate::hints::hinted_start;
use crate::kept::Apart;

// So many of the first keys are looked at one by one: most ranges end there.
const NEAR: usize = 8;

// Whether a key is below another, or isn't above it.
fn falls<K: Apart>(kept: &K, key: &K, also: bool) -> bool
    ensures { result ≡ falls also (K.cmp kept.now key.now) }
{
    if also {
        kept.cmp(key).is_le()
    } else {
        kept.cmp(key).is_lt()
    }
}

// Where the keys end that are below one, or that aren't above it.
pub(crate) fn end<K: Apart>(keys: &[K], key: &K, also: bool) -> usize
    requires { IsPartitionedBy (λ k. falls also (K.cmp k key.now)) keys.now }
    ensures { PartsAt (λ k. falls also (K.cmp k key.now)) keys.now result }
{
    for at in 0..NEAR {
        if at >= keys.len() {
            return keys.len();
        }
        if !falls(&keys[at], key, also) {
            return at;
        }
    }
    keys.partition_point(|kept| falls(kept, key, also))
}

// Where the keys begin that aren't below one, by hints or else by a search.
pub(crate) fn start<K: Apart>(keys: &[K], groups: &[u32], key: &K) -> usize
    requires { IsPartitionedBy (λ k. is_lt (K.cmp k key.now)) keys.now }
    ensures { PartsAt (λ k. is_lt (K.cmp k key.now)) keys.now result }
{
    match hinted_start(keys, groups, key) {
        Some(at) => at,
        None => keys.partition_point(|kept| kept.cmp(key).is_lt()),
    }
}
