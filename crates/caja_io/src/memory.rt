// What the source and the sink in memory share.
ghost use Rattle.std.specs.Prelude.{◌≡◌, ◌+◌, ◌≤◌, ◌↔◌, ◌++◌, length, take, IsTrue, Contains};

// Whether the call is one of those that fail.
pub(crate) fn is_listed(fail: &[u32], call: u64) -> bool
    ensures { IsTrue result ↔ Contains fail.now call }
{
    fail.iter().any(|listed| u64::from(*listed) == call)
}

// Copies to the place `at` of the slice.
pub(crate) fn copy_at(bytes: &[u8], into: &mut [u8], at: usize)
    requires { at + length bytes.now ≤ length into.old }
    ensures { take (at + length bytes.now) into.new ≡ take at into.old ++ bytes.now }
{
    into[at..at + bytes.len()].copy_from_slice(bytes);
}
