use ndc_domain::{ClusterNo, Clusters, DomainTable};
use std::marker::Model;

/// Where the cells of a cluster stand: all clusters, which of them it is, and the limit of histories, at most 204,800.
#[derive(Drop)]
pub struct Home<'a> {
    /// All clusters, in the order that each of them knows.
    pub clusters: &'a Clusters,
    /// Which of them it is.
    pub me: ClusterNo,
    /// The greatest number of events on a branch that a command or a reset may leave, at most 204,800.
    pub limit: u64,
}

impl<'a> Model for Home<'a> {
    ghost use Rattle.ndc_cluster.specs.Homes.{HomeValue};

    ghost Value = { HomeValue };

    ghost view = { λ home. record {
      clusters = home.clusters.now;
      me = home.me;
      limit = home.limit;
    } };
}

/// Where they stand while they do jobs: their home, with the domain records of their cluster.
#[derive(Drop)]
pub struct Desk<'a> {
    clusters: &'a Clusters,
    me: ClusterNo,
    limit: u64,
    table: &'a DomainTable,
}

impl<'a> Model for Desk<'a> {
    ghost use Rattle.ndc_model_cells.specs.Writing.{Desk as DeskValue};

    ghost Value = { DeskValue };

    ghost view = { λ desk. record {
      clusters = desk.clusters.now;
      me = desk.me;
      limit = desk.limit;
      table = desk.table.now;
    } };
}

impl<'a> Desk<'a> {
    ghost use Rattle.std.specs.Prelude.{◌≡◌};

    /// The desk of the cells of a cluster.
    pub fn new(
        clusters: &'a Clusters,
        me: ClusterNo,
        limit: u64,
        table: &'a DomainTable,
    ) -> Desk<'a>
        ensures { result ≡ record {
          clusters = clusters.now;
          me = me;
          limit = limit;
          table = table.now;
        } }
    {
        Desk {
            clusters,
            me,
            limit,
            table,
        }
    }

    /// The clusters.
    pub fn clusters(&self) -> &Clusters
        ensures { result.now ≡ self.now.clusters }
    {
        self.clusters
    }

    /// Which of them it is.
    pub fn me(&self) -> ClusterNo
        ensures { result ≡ self.now.me }
    {
        self.me
    }

    /// The limit of histories.
    pub fn limit(&self) -> u64
        ensures { result ≡ self.now.limit }
    {
        self.limit
    }

    /// Its domain records.
    pub fn table(&self) -> &DomainTable
        ensures { result.now ≡ self.now.table }
    {
        self.table
    }
}
