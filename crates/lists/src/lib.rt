// Definitions and laws about tests, searches and lists that the other crates cite, and a part of a slice.
#![tactic(auto)]

ghost use Rattle.std.specs.Prelude.{◌≡◌};
ghost use Rattle.lists.specs.Subslice.{subslice};

// The bytes from start up to end, as far as there are such.
pub fn subslice(s: &[u8], start: usize, end: usize) -> &[u8]
    ensures { result.now ≡ subslice s.now start end }
{
    s.get(start..end.min(s.len())).unwrap_or(&[])
}
