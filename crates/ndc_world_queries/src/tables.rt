ghost use Rattle.std.specs.Prelude.{◌≡◌, map};
ghost use Rattle.ndc_world_replication.specs.Publishers.{PublisherValue};
ghost use Rattle.ndc_world_queries.specs.Summaries.{are_one_table, same_table};

use ndc_cluster::Cell;
use ndc_domain::DomainTable;
use ndc_world_replication::Publisher;

/// Whether two tables hold the same records.
fn is_same(one: &DomainTable, two: &DomainTable) -> bool
    ensures { result ≡ same_table one.now two.now }
{
    one.same(two)
}

/// Whether all clusters hold one table.
pub(crate) fn have_one_table<C: Cell + Drop>(publishers: &[Publisher<C>]) -> bool
    ensures { result ≡ are_one_table (map (λ (publisher : PublisherValue). publisher.cluster.table) publishers.now) }
{
    let Some((first, others)) = publishers.split_first() else {
        return true;
    };
    for publisher in others {
        if !is_same(first.table(), publisher.table()) {
            return false;
        }
    }
    true
}
