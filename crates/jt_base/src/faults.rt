//! Counts of faults.
ghost use Rattle.std.specs.Prelude.{◌≡◌, ◌≤◌, ◌==◌};
ghost use Rattle.jt_base.specs.Faults.{Rises, counted};
ghost use Rattle.jt_base.specs.FileStore.{is_listed};

/// Counts one more fault. A count stands still at its type's end.
pub fn count_fault(count: &mut u64)
    ensures counted { count.new ≡ counted count.old }
    ensures later { count.old ≤ count.new }
    ensures rises { Rises count.old count.new }
{
    *count = count.saturating_add(1);
}

/// Whether the call of this number, from 0, is one of those that are to fail.
pub(crate) fn is_listed(fail_at: &[u32], call: u64) -> bool
    ensures { result ≡ is_listed call fail_at.now }
{
    fail_at.iter().any(|k| u64::from(*k) == call)
}
