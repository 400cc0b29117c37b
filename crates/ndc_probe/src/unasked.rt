//! What is told where the words of a comment are not question.
ghost use Rattle.std.specs.Prelude.{◌≡◌, ◌<◌, ◌≤◌, ◌++◌, OnOk, map, Option};
ghost use Rattle.ndc_domain.specs.Clusters.{count_of};
ghost use Rattle.ndc_probe.specs.Unasked.{name_word, names_text, range_text, shards_text, unasked_text, usage_of, verb_among};

use ndc_domain::ClusterNo;
use ndc_event::OutOfMemory;
use ndc_probe_questions::{Verb, verb_of};
use ndc_script_types::Header;
use ndc_text::line::push_number;

/// What stands after the word that begins a question.
#[tactic(auto, unfolding(crate::specs::Unasked::usage_of))]
fn usage_of(verb: Option<Verb>) -> &'static str
    ensures { result.now ≡ usage_of verb }
{
    match verb {
        None => "flight, queue, holds, late, workflows, forks, differs or dumps",
        Some(Verb::Flight) => "flight READER SOURCE SHARD",
        Some(Verb::Queue) => "queue SOURCE SHARD",
        Some(Verb::Holds) => "holds READER SOURCE SHARD",
        Some(Verb::Late) => "late READER SOURCE",
        Some(Verb::Workflows) => "workflows CLUSTER DOMAIN",
        Some(Verb::Forks) => "forks CLUSTER DOMAIN",
        Some(Verb::Differs) => "differs CLUSTER CLUSTER DOMAIN",
        Some(Verb::Dumps) => "dumps CLUSTER DOMAIN",
    }
}

/// The word that begins these, where it begins a question.
fn verb_among(words: &[&[u8]]) -> Option<Verb>
    ensures { result ≡ verb_among (map (λ word. word.now) words.now) }
{
    match words {
        [word, ..] => verb_of(word),
        [] => None,
    }
}

/// Appends the name of the cluster of a number, after a space.
#[tactic(auto, unfolding(crate::specs::Unasked::name_word))]
fn push_name(text: &mut Vec<u8>, header: &Header, number: u32) -> Result<(), OutOfMemory>
    requires { number < count_of header.now.clusters }
    ensures { OnOk result (text.new.items ≡ text.old.items ++ name_word header.now number) }
{
    text.extend_from_slice(b" ")?;
    text.extend_from_slice(header.clusters.name(ClusterNo { number }).as_bytes())
}

/// Appends the names of the clusters, each after a space.
#[tactic(auto, unfolding(crate::specs::Unasked::names_text))]
fn push_names(text: &mut Vec<u8>, header: &Header) -> Result<(), OutOfMemory>
    ensures { OnOk result (text.new.items ≡ text.old.items ++ names_text header.now) }
{
    for number in 0..header.clusters.count() {
        push_name(text, header, number)?;
    }
    Ok(())
}

/// Appends from which to which a shard is.
#[tactic(auto, unfolding(crate::specs::Unasked::shards_text))]
fn push_shards(text: &mut Vec<u8>, last: u32) -> Result<(), OutOfMemory>
    ensures { OnOk result (text.new.items ≡ text.old.items ++ shards_text last) }
{
    text.extend_from_slice(b", shards 0 to ")?;
    push_number(text, u64::from(last))?;
    text.extend_from_slice(b"\n")
}

/// Appends of what words the clusters and shards are to be.
#[tactic(auto, unfolding(crate::specs::Unasked::range_text))]
fn push_range(text: &mut Vec<u8>, header: &Header) -> Result<(), OutOfMemory>
    requires { 1 ≤ header.now.shards }
    ensures { OnOk result (text.new.items ≡ text.old.items ++ range_text header.now) }
{
    text.extend_from_slice(b"; clusters")?;
    push_names(text, header)?;
    push_shards(text, header.shards - 1)
}

/// Appends what was expected in the place of these words.
#[tactic(auto, unfolding(crate::specs::Unasked::unasked_text))]
pub(crate) fn push_unasked(
    text: &mut Vec<u8>,
    header: &Header,
    words: &[&[u8]],
) -> Result<(), OutOfMemory>
    requires { 1 ≤ header.now.shards }
    ensures { OnOk result (text.new.items ≡ text.old.items ++ unasked_text header.now (map (λ word. word.now) words.now)) }
{
    let usage = usage_of(verb_among(words));
    text.extend_from_slice(b"no question; expected: ")?;
    text.extend_from_slice(usage.as_bytes())?;
    push_range(text, header)
}
