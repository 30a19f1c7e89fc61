ghost use Rattle.std.specs.Prelude.{◌↔◌, IsTrue, Contains};

// Whether the call is one of these.
pub(crate) fn is_listed(fails: &[u64], call: u64) -> bool
    ensures { IsTrue result ↔ Contains fails.now call }
{
    fails.contains(&call)
}
