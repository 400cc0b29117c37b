ghost use Rattle.std.specs.Prelude.{◌≡◌, ◌++◌, [], ◌∷◌, codes, decimal, map, IfOk, OnOk};
ghost use Rattle.std.specs.Option.{option_copied};
ghost use Rattle.ndc_model.specs.Tables.{domain_answer, failover_words, join_words, register_words, retain_words};
ghost use Rattle.ndc_model.specs.Texts.{ok, refused};
ghost use Rattle.ndc_world_answers.specs.Writers.{writer_name_in};

use crate::text::AnswerText;
use crate::word::{Word, ok, refused};
use ndc_domain::{Clusters, DomainError, DomainRecord, FailoverError, JoinError, RetainError};
use ndc_event::OutOfMemory;
use ndc_script_types::Header;
use std::alloc::Global;

/// A line was done, and there is nothing to say of it.
pub fn done(alloc: Global) -> Result<AnswerText, OutOfMemory>
    ensures { IfOk result (λ text. text ≡ ok []) }
{
    ok(alloc, &[])
}

/// A line was done, and answers a number.
pub fn counted(alloc: Global, number: u64) -> Result<AnswerText, OutOfMemory>
    ensures { IfOk result (λ text. text ≡ ok (decimal number ∷ [])) }
{
    ok(alloc, &[Word::Number(number)])
}

/// Why a domain is not registered; want of memory has no word.
pub fn register_refused(alloc: Global, error: DomainError) -> Result<AnswerText, OutOfMemory>
    ensures { IfOk result (λ text. text ≡ refused (register_words error)) }
{
    match error {
        DomainError::NotPrimary => refused(alloc, &[Word::Plain("NotPrimary")]),
        DomainError::DomainExists => refused(alloc, &[Word::Plain("DomainExists")]),
        DomainError::UnknownTarget => refused(alloc, &[Word::Plain("UnknownTarget")]),
        DomainError::NotMember => refused(alloc, &[Word::Plain("NotMember")]),
        DomainError::Memory => refused(alloc, &[]),
    }
}

/// Why the days of a domain are not changed.
pub fn retain_refused(alloc: Global, error: RetainError) -> Result<AnswerText, OutOfMemory>
    ensures { IfOk result (λ text. text ≡ refused (retain_words error)) }
{
    match error {
        RetainError::NotPrimary => refused(alloc, &[Word::Plain("NotPrimary")]),
        RetainError::UnknownDomain => refused(alloc, &[Word::Plain("UnknownDomain")]),
    }
}

/// Why a domain is not failed over.
pub fn failover_refused(alloc: Global, error: FailoverError) -> Result<AnswerText, OutOfMemory>
    ensures { IfOk result (λ text. text ≡ refused (failover_words error)) }
{
    match error {
        FailoverError::UnknownDomain => refused(alloc, &[Word::Plain("UnknownDomain")]),
        FailoverError::UnknownTarget => refused(alloc, &[Word::Plain("UnknownTarget")]),
        FailoverError::VersionLimit => refused(alloc, &[Word::Plain("VersionLimit")]),
        FailoverError::NotMember => refused(alloc, &[Word::Plain("NotMember")]),
    }
}

/// Why a cluster does not join a domain.
pub fn join_refused(alloc: Global, error: JoinError) -> Result<AnswerText, OutOfMemory>
    ensures { IfOk result (λ text. text ≡ refused (join_words error)) }
{
    match error {
        JoinError::NotPrimary => refused(alloc, &[Word::Plain("NotPrimary")]),
        JoinError::UnknownDomain => refused(alloc, &[Word::Plain("UnknownDomain")]),
        JoinError::MemberExists => refused(alloc, &[Word::Plain("MemberExists")]),
    }
}

/// The name of the writer of a version, where there is one.
fn writer_name(clusters: &Clusters, version: u64) -> &[u8]
    ensures { result.now ≡ writer_name_in clusters.now version }
{
    match clusters.writer_of(version) {
        None => b"",
        Some(cluster) => clusters.name(cluster).as_bytes(),
    }
}

/// What a cluster's record of a domain says: its version, the active cluster, the number of its changes and the days.
pub fn domain(
    alloc: Global,
    header: &Header,
    known: Option<&DomainRecord>,
) -> Result<AnswerText, OutOfMemory>
    ensures { IfOk result (λ text. text ≡ domain_answer header.now (option_copied known.entry)) }
{
    match known {
        None => refused(alloc, &[Word::Plain("UnknownDomain")]),
        Some(one) => ok(
            alloc,
            &[
                Word::Number(one.version),
                Word::Bytes(writer_name(&header.clusters, one.version)),
                Word::Number(one.config),
                Word::Number(one.days as u64),
            ],
        ),
    }
}
