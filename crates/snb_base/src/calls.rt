//! Lists of calls that are to fail.

ghost use Rattle.std.specs.Prelude.{◌≡◌};
ghost use Rattle.snb_base.specs.MemoryShelf.{is_listed};

// Whether the call is on the list.
pub(crate) fn is_on(calls: &[u64], call: u64) -> bool
    ensures { result ≡ is_listed calls.now call }
{
    calls.iter().any(|listed| call == *listed)
}
