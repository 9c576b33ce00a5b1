// Counts of calls and of failures.
ghost use Rattle.std.specs.Prelude.{◌≡◌, ◌↔◌, IsTrue};
ghost use Rattle.host_io.specs.Causes.{raised, IsListed};

// One more, or the same where the count stands at its end.
pub(crate) fn raised(count: u64) -> u64
    ensures { result ≡ raised count }
{
    count.saturating_add(1)
}

// Whether the call after this many calls is listed.
pub(crate) fn is_listed(fails: &[u64], calls: u64) -> bool
    ensures { IsTrue result ↔ IsListed fails.now calls }
{
    match calls.checked_add(1) {
        Some(number) => fails.contains(&number),
        None => false,
    }
}
