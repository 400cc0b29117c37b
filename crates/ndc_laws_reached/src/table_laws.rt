// Tables in fair worlds, as laws.
ghost use Rattle.std.specs.Prelude.{ℕ, ◌+◌, ◌<◌, ◌≤◌, List};
ghost use Rattle.ndc_script_types.specs.WellFormed.{IsCluster, IsWellFormedRegister};
ghost use Rattle.ndc_script_types.specs.declared.script.Header.{Header as Head};
ghost use Rattle.ndc_domain.specs.Clusters.{AreClusters};
ghost use Rattle.ndc_domain.specs.Records.{failover_of, join_of, register_of, retain_of};
ghost use Rattle.ndc_domain.specs.declared.clusters.ClusterNo.{ClusterNo as Number};
ghost use Rattle.ndc_domain.specs.declared.record.DomainRecord.{DomainRecord as Domain};
ghost use Rattle.ndc_event.specs.declared.name.Name.{Name};
ghost use Rattle.ndc_laws_reached.specs.Tables.{IsTableFit};
ghost use Rattle.ndc_model.specs.Facts.{IsReached};
ghost use Rattle.ndc_model.specs.Tables.{domains_step, failover_words, join_step, register_words, retain_words, table_step};
ghost use Rattle.ndc_model.specs.World.{World, cluster_at, with_table};

/// A table that fits may take the place of a cluster's: the world stays as it should be.
pub fn fitting_tables_keep_worlds_reached()
    ensures { (header : Head) (lines : ℕ) (cluster : Number) (table : List Domain) (w : World)
        → IsReached header lines w → IsCluster header cluster
        → IsTableFit header lines w cluster table
        → IsReached header lines (with_table cluster table w) }
{}

/// A domain may be registered, get other days or a member more, or fail over, and a cluster may merge the table of
/// another: the world stays as it should be, with one line more where days change.
pub fn lines_on_domains_keep_worlds_reached()
    ensures registered { (header : Head) (lines : ℕ) (at target : Number) (domain : Name) (days : ℕ)
        (members : List ℕ) (w : World) → AreClusters header.clusters
        → IsWellFormedRegister header at target domain days members
        → IsReached header lines w
        → IsReached header lines (table_step register_words at w
        (register_of header.clusters at domain target days members
        (cluster_at at w).table)).world }
    ensures retained { (header : Head) (lines : ℕ) (at : Number) (domain : Name) (days : ℕ)
        (w : World) → IsCluster header at → lines < 100000 → IsReached header lines w
        → IsReached header (lines
        + 1) (table_step retain_words at w
        (retain_of at domain days (cluster_at at w).table)).world }
    ensures joined { (header : Head) (lines : ℕ) (at member : Number) (domain : Name) (w : World)
        → IsCluster header at → IsCluster header member → IsReached header lines w
        → IsReached header lines (join_step at w
        (join_of at domain member (cluster_at at w).table)).world }
    ensures failed_over { (header : Head) (lines : ℕ) (at target : Number) (domain : Name)
        (w : World) → AreClusters header.clusters → IsCluster header at → IsReached header lines w
        → IsReached header lines (table_step failover_words at w
        (failover_of header.clusters domain target (cluster_at at w).table)).world }
    ensures merged { (header : Head) (lines : ℕ) (to from : Number) (w : World)
        → IsCluster header to → IsCluster header from → IsReached header lines w
        → IsReached header lines (domains_step to from w).world }
{}

/// More lines may have been run, up to 100,000: the world stays as it should be.
pub fn more_lines_keep_worlds_reached()
    ensures { (header : Head) (lines more : ℕ) (w : World) → lines ≤ more → more ≤ 100000
        → IsReached header lines w → IsReached header more w }
{}
