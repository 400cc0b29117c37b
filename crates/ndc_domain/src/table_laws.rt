//! What is true of domain tables and of the calls on them. Each law is the contract of a function that does nothing.

ghost use Rattle.std.specs.Prelude.{◌≡◌, ℕ, ◌≤◌, Bool, false, IsSomeAnd, List, Option, Some, Ok, ◌↔◌, if◌then◌else◌};
ghost use Rattle.std.specs.Str.{bytes_eq};
ghost use Rattle.ndc_domain.specs.declared.clusters.ClusterNo.{ClusterNo};
ghost use Rattle.ndc_domain.specs.declared.record.DomainRecord.{DomainRecord};
ghost use Rattle.ndc_domain.specs.Clusters.{ClusterList, AreClusters, writer_of};
ghost use Rattle.ndc_domain.specs.Members.{AreMembers};
ghost use Rattle.ndc_domain.specs.Records.{Rise, IsTable, record_of, put_record, register_of, retain_of, failover_of, join_of};
ghost use Rattle.ndc_domain.specs.Merge.{merged_record, merged, merged_option, brings};
ghost use Rattle.ndc_domain.specs.Laws.{Keeps, DaysAgree, EachNamesActive};

/// Two tables that answer alike for each name are one.
pub fn tables_are_what_is_found_in_them()
    ensures { (records others : List DomainRecord) →
        Rise records → Rise others →
        ((name : List ℕ) → record_of records name ≡ record_of others name) → records ≡ others }
{}

/// Putting a record changes what is found under its name, and nothing else.
pub fn putting_changes_one_record()
    ensures { (new : DomainRecord) (records : List DomainRecord) (name : List ℕ) →
        record_of (put_record new records) name
        ≡ (if bytes_eq new.name name then Some new else record_of records name) }
{}

/// Under each name a merged table has what both tables have under it.
pub fn merging_goes_name_by_name()
    ensures { (records others : List DomainRecord) (name : List ℕ) →
        Rise records → Rise others →
        record_of (merged records others) name
        ≡ merged_option (record_of records name) (record_of others name) }
{}

/// A record brings something exactly where merging changes the record that it is merged into.
pub fn merging_counts_what_changes()
    ensures unchanged { (ours theirs : DomainRecord) → brings ours theirs ≡ false
        → merged_record ours theirs ≡ ours }
    ensures changed { (ours theirs : DomainRecord) → merged_record ours theirs ≡ ours
        → brings ours theirs ≡ false }
{}

/// Merging a table with itself changes nothing.
pub fn merging_is_idempotent()
    ensures { (records : List DomainRecord) → IsTable records → merged records records ≡ records }
{}

/// The order of merging does not matter. In two tables that change places, records of one domain
/// with equal config versions are to have equal days.
pub fn merging_does_not_depend_on_order()
    ensures commutes { (records others : List DomainRecord) →
        IsTable records → IsTable others → DaysAgree records others → merged records others
        ≡ merged others records }
    ensures associates { (one two three : List DomainRecord) →
        IsTable one → IsTable two → IsTable three → merged (merged one two) three
        ≡ merged one (merged two three) }
{}

/// Merging lowers no version and no config version, and loses no record and no member of either
/// table.
pub fn merging_loses_nothing()
    ensures ours { (records others : List DomainRecord) (name : List ℕ) (old : DomainRecord) →
        IsTable records → IsTable others → record_of records name ≡ Some old →
        IsSomeAnd (record_of (merged records others) name) (Keeps old) }
    ensures theirs { (records others : List DomainRecord) (name : List ℕ) (old : DomainRecord) →
        IsTable records → IsTable others → record_of others name ≡ Some old →
        IsSomeAnd (record_of (merged records others) name) (Keeps old) }
{}

/// A failover never lowers a version, gives one of the target, and changes nothing else in the
/// record.
pub fn failing_over_raises_the_version()
    ensures { (clusters : ClusterList) (name : List ℕ) (target : ClusterNo)
        (records : List DomainRecord)
        (old : DomainRecord) (answer : ℕ × List DomainRecord) →
        AreClusters clusters → record_of records name ≡ Some old →
        failover_of clusters name target records ≡ Ok answer →
        (old.version ≤ answer.0) × (writer_of clusters answer.0 ≡ Some target)
        × (answer.1 ≡ put_record (record old { version = answer.0 }) records) }
{}

/// The writer of each record's version is one of its members, and stays so under every call.
pub fn records_keep_naming_their_active_cluster()
    ensures registering { (clusters : ClusterList) → AreClusters clusters →
        (at : ClusterNo) (name : List ℕ) (target : ClusterNo) (days : ℕ) (members : List ℕ) (records
        : List DomainRecord)
        (answer : ℕ × List DomainRecord) →
        EachNamesActive clusters records → register_of clusters at name target days members records
        ≡ Ok answer →
        EachNamesActive clusters answer.1 }
    ensures retaining { (clusters : ClusterList) → AreClusters clusters →
        (at : ClusterNo) (name : List ℕ) (days : ℕ) (records : List DomainRecord) (answer : ℕ
        × List DomainRecord) →
        EachNamesActive clusters records → retain_of at name days records ≡ Ok answer
        → EachNamesActive clusters answer.1 }
    ensures failing_over { (clusters : ClusterList) → AreClusters clusters →
        (name : List ℕ) (target : ClusterNo) (records : List DomainRecord) (answer : ℕ
        × List DomainRecord) →
        EachNamesActive clusters records → failover_of clusters name target records ≡ Ok answer →
        EachNamesActive clusters answer.1 }
    ensures joining { (clusters : ClusterList) → AreClusters clusters →
        (at : ClusterNo) (name : List ℕ) (member : ClusterNo) (records after : List DomainRecord) →
        EachNamesActive clusters records → join_of at name member records ≡ Ok after
        → EachNamesActive clusters after }
    ensures merging { (clusters : ClusterList) → AreClusters clusters →
        (records others : List DomainRecord) →
        EachNamesActive clusters records → EachNamesActive clusters others
        → EachNamesActive clusters (merged records others) }
{}

/// A table stays in order of name, with versions in range and members in order, under every call.
pub fn tables_stay_tables()
    ensures registering { (clusters : ClusterList) → AreClusters clusters →
        (at : ClusterNo) (name : List ℕ) (target : ClusterNo) (days : ℕ) (members : List ℕ) (records
        : List DomainRecord)
        (answer : ℕ × List DomainRecord) →
        AreMembers members → IsTable records
        → register_of clusters at name target days members records ≡ Ok answer →
        IsTable answer.1 }
    ensures retaining { (at : ClusterNo) (name : List ℕ) (days : ℕ) (records : List DomainRecord)
        (answer : ℕ × List DomainRecord) →
        IsTable records → retain_of at name days records ≡ Ok answer → IsTable answer.1 }
    ensures failing_over { (clusters : ClusterList) → AreClusters clusters →
        (name : List ℕ) (target : ClusterNo) (records : List DomainRecord) (answer : ℕ
        × List DomainRecord) →
        IsTable records → failover_of clusters name target records ≡ Ok answer → IsTable answer.1 }
    ensures joining { (at : ClusterNo) (name : List ℕ) (member : ClusterNo)
        (records after : List DomainRecord) →
        IsTable records → join_of at name member records ≡ Ok after → IsTable after }
    ensures merging { (records others : List DomainRecord) → IsTable records → IsTable others
        → IsTable (merged records others) }
{}
