ghost use Rattle.std.specs.Prelude.{◌≡◌, ◌<◌, ◌++◌, [], ◌∷◌, codes, map, IfOk, IfSome, OnOk};
ghost use Rattle.std.specs.List.{AllByRecursion};
ghost use Rattle.std.specs.Option.{option_copied};
ghost use Rattle.ndc_domain.specs.Clusters.{cluster_no, count_of, name_of};
ghost use Rattle.ndc_domain.specs.Members.{AreMembers};
ghost use Rattle.ndc_model.specs.Tables.{members_answer};
ghost use Rattle.ndc_text.specs.Views.{further, with_commas};
ghost use Rattle.ndc_world_answers.specs.Writers.{names_at};

use crate::text::AnswerText;
use crate::word::{Word, ok, refused};
use ndc_domain::{ClusterNo, Clusters, DomainRecord, Members};
use ndc_event::{Name, OutOfMemory};
use ndc_script_types::Header;
use std::alloc::Global;

/// Adds the name of the cluster with this number, where it is a member.
fn push_member<'a>(
    names: &mut Vec<&'a Name>,
    clusters: &'a Clusters,
    members: Members,
    number: u32,
) -> Result<(), OutOfMemory>
    requires { AllByRecursion (λ number. number < count_of clusters.now) members }
    ensures name { OnOk result
        (map (λ name. name.now) names.new.items ≡ map (λ name. name.now) names.old.items
        ++ names_at clusters.now members number) }
    ensures ascending { AreMembers members }
{
    let cluster = ClusterNo { number };
    if members.has(cluster) {
        names.push(clusters.name(cluster))?;
    }
    Ok(())
}

/// The names of the members, in header order.
fn names<'a>(
    alloc: Global,
    clusters: &'a Clusters,
    members: Members,
) -> Result<Vec<&'a Name>, OutOfMemory>
    requires { AllByRecursion (λ number. number < count_of clusters.now) members }
    ensures { IfOk result (λ names.
        map (λ name. name.now) names.items
        ≡ map (λ number. name_of clusters.now (cluster_no number)) members) }
{
    let mut names = Vec::new(alloc);
    for number in 0..8 {
        push_member(&mut names, clusters, members, number)?;
    }
    Ok(names)
}

/// Appends names, each after a comma.
fn push_further(text: &mut Vec<u8>, names: &[&Name]) -> Result<(), OutOfMemory>
    ensures { OnOk result (text.new.items
        ≡ text.old.items ++ further (map (λ name. name.now) names.now)) }
{
    for name in names {
        text.extend_from_slice(b",")?;
        text.extend_from_slice(name.as_bytes())?;
    }
    Ok(())
}

/// The names with commas between them.
fn joined(alloc: Global, names: &[&Name]) -> Result<Vec<u8>, OutOfMemory>
    ensures { IfOk result (λ text. text.items ≡ with_commas (map (λ name. name.now) names.now)) }
{
    let mut text = Vec::new(alloc);
    if let [first, later @ ..] = names {
        text.extend_from_slice(first.as_bytes())?;
        push_further(&mut text, later)?;
    }
    Ok(text)
}

/// The members of a domain, by a cluster's record of it. Members are clusters of the header.
pub fn members(
    alloc: Global,
    header: &Header,
    known: Option<&DomainRecord>,
) -> Result<AnswerText, OutOfMemory>
    requires { IfSome (option_copied known) (λ one.
        AllByRecursion (λ number. number < count_of header.now.clusters) one.members) }
    ensures { IfOk result (λ text. text ≡ members_answer header.now (option_copied known.entry)) }
{
    let Some(one) = known else {
        return refused(alloc, &[Word::Plain("UnknownDomain")]);
    };
    let list = names(alloc, &header.clusters, one.members)?;
    let shown = joined(alloc, list.as_slice())?;
    ok(alloc, &[Word::Bytes(shown.as_slice())])
}
