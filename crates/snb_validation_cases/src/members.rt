//! The keys of JSON objects.

ghost use Rattle.std.specs.Prelude.{◌≡◌, ◌≢◌, Some, None, MatchOption, codes};
ghost use Rattle.serde_json.specs.Data.{Data, Members, member, no_members};
ghost use Rattle.serde_json.specs.Find.{as_object};
ghost use Rattle.serde_json.specs.View.{members_view, view};

use serde_json::{Map, Value};
use std::collections::btree_map::Iter;

// The value of the next key, where it has that name.
fn take_named<'a>(members: &mut Iter<'a, String, Value>, name: &str) -> Option<&'a Value>
    ensures { MatchOption result
        ((d : Data) (rest : Members) → members_view members.old ≢ member name.now d rest)
        (λ v. members_view members.old ≡ member name.now (view v.now) (members_view members.new)) }
{
    let (key, value) = members.next()?;
    if key.as_str() == name {
        Some(value)
    } else {
        None
    }
}

/// What an object holds under this key, where it has no other.
pub fn held_alone<'a>(value: &'a Value, name: &str) -> Option<&'a Value>
    ensures { MatchOption result
        ((held : Data) → as_object (view value.now) ≢ Some (member name.now held no_members))
        (λ held. as_object (view value.now) ≡ Some (member name.now (view held.now) no_members)) }
{
    let members = value.as_object()?;
    alone(members, name)
}

// What is held under this key, where there is no other.
fn alone<'a>(members: &'a Map<String, Value>, name: &str) -> Option<&'a Value>
    ensures { MatchOption result
        ((held : Data) → members_view members.now.entries ≢ member name.now held no_members)
        (λ held. members_view members.now.entries ≡ member name.now (view held.now) no_members) }
{
    let mut members = members.iter();
    let held = take_named(&mut members, name)?;
    if members.next().is_some() {
        return None;
    }
    Some(held)
}

/// The values that an object holds under the keys `params`, `read` and `reply`, where it has no other.
pub fn asked_parts(value: &Value) -> Option<(&Value, &Value, &Value)>
    ensures { MatchOption result
        ((params word held : Data) → as_object (view value.now)
        ≢ Some (member (codes "params") params (member (codes "read") word (member (codes "reply") held no_members))))
        (λ parts. as_object (view value.now)
        ≡ Some (member (codes "params") (view parts.0.now)
        (member (codes "read") (view parts.1.now) (member (codes "reply") (view parts.2.now) no_members)))) }
{
    let members = value.as_object()?;
    three(members)
}

// What is held under the three keys, where there is no other.
fn three(members: &Map<String, Value>) -> Option<(&Value, &Value, &Value)>
    ensures { MatchOption result
        ((params word held : Data) → members_view members.now.entries
        ≢ member (codes "params") params (member (codes "read") word (member (codes "reply") held no_members)))
        (λ parts. members_view members.now.entries
        ≡ member (codes "params") (view parts.0.now)
        (member (codes "read") (view parts.1.now) (member (codes "reply") (view parts.2.now) no_members))) }
{
    let mut members = members.iter();
    let params = take_named(&mut members, "params")?;
    let word = take_named(&mut members, "read")?;
    let held = take_named(&mut members, "reply")?;
    match members.next() {
        None => Some((params, word, held)),
        Some(_) => None,
    }
}
