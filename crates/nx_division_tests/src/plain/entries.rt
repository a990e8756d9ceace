// What is asked of nodes.
ghost use Rattle.std.specs.Prelude.{◌≡◌};
ghost use Rattle.nx_sketch.specs.Plan.{is_cluster};
ghost use Rattle.nx_division_tests.specs.Tests.{is_standalone};
ghost use Rattle.nx_matrix.specs.Rules.{is_free};

use nx_matrix::Entry;

pub(super) fn is_standalone(entry: Entry) -> bool
    ensures { result ≡ is_standalone entry }
{
    matches!(entry, Entry::Standalone)
}

pub(super) fn is_cluster(entry: Entry) -> bool
    ensures { result ≡ is_cluster entry }
{
    matches!(entry, Entry::Cluster)
}

pub(super) fn is_free(entry: Entry) -> bool
    ensures { result ≡ is_free entry }
{
    matches!(entry, Entry::Free)
}
