ghost use Rattle.std.specs.Prelude.{◌≡◌, ◌<◌, map, All, IfOk};
ghost use Rattle.ndc_event.specs.Outcome.{Gives};
ghost use Rattle.ndc_script_types.specs.declared.script.ScriptCause.TheVariants.{BadLine, LineLimit};
ghost use Rattle.ndc_script_types.specs.declared.script.ScriptError.TheVariants.{Refused, Memory};
ghost use Rattle.ndc_script_read.specs.Body.{job_at, job_line, job_by, words_job, job_read, are_end, is_end, jobs_of, burst_line, verb_act, act_by, words_act, act_read, body_behind, body_of};
ghost use Rattle.ndc_script_types.specs.Print.{lines_within};
ghost use Rattle.ndc_script_types.specs.WellFormed.{IsWellFormedHeader, IsWellFormedJob, IsWellFormedAct, AreWellFormedLines};

use crate::command::{command_line, command_of};
use crate::line::{
    beat_line, cluster_line, compare_line, domain_line, handover_line, levels_line, pair_line,
    place_line, places_line, progress_line, pull_line, reset_line, retain_line, settle_line,
    target_line, workflow_line,
};
use crate::register::register_line;
use ndc_script_types::{Act, BurstJob, Header, Jobs, Line, ScriptCause, ScriptError};
use ndc_script_words::{
    CommandVerb, Interner, KeptLine, Reading, Verb, bad, known, named, verb_of,
};

/// The refusal of a line past the limit.
fn past_limit(line: u64) -> ScriptError
    ensures { result ≡ Refused line LineLimit }
{
    ScriptError::Refused {
        line,
        cause: ScriptCause::LineLimit,
    }
}

/// The job of a command line, after the workflow.
#[tactic(auto, unfolding(crate::specs::Body::job_at))]
fn job_at(
    names: &mut Interner,
    line: u64,
    verb: CommandVerb,
    domain: &[u8],
    workflow: &[u8],
    operands: &[&[u8]],
) -> Result<BurstJob, ScriptError>
    ensures answer { Gives Memory (λ job.
        job) result (job_at line verb domain.now workflow.now
        (map (λ word. word.now) operands.now)) }
    ensures well_formed { IfOk result IsWellFormedJob }
{
    let command = command_of(names, line, verb, operands)?;
    let domain = named(names, line, domain)?;
    let workflow = named(names, line, workflow)?;
    Ok(BurstJob {
        number: line,
        domain,
        workflow,
        command,
    })
}

/// The job of a command line at the cluster of this name, after its first word.
#[tactic(auto, unfolding(crate::specs::Body::job_line))]
fn job_line(
    names: &mut Interner,
    name: &[u8],
    line: u64,
    verb: CommandVerb,
    words: &[&[u8]],
) -> Result<BurstJob, ScriptError>
    ensures answer { Gives Memory (λ job.
        job) result (job_line name.now line verb (map (λ word. word.now) words.now)) }
    ensures well_formed { IfOk result IsWellFormedJob }
{
    match words {
        [cluster, domain, workflow, operands @ ..] => {
            if *cluster == name {
                job_at(names, line, verb, domain, workflow, operands)
            } else {
                Err(bad(line))
            }
        }
        _ => Err(bad(line)),
    }
}

/// The job that words are, by the first.
#[tactic(auto, unfolding(crate::specs::Body::words_job))]
fn words_job(
    names: &mut Interner,
    name: &[u8],
    line: u64,
    words: &[&[u8]],
) -> Result<BurstJob, ScriptError>
    ensures answer { Gives Memory (λ job.
        job) result (words_job name.now line (map (λ word. word.now) words.now)) }
    ensures well_formed { IfOk result IsWellFormedJob }
{
    match words {
        [] => Err(bad(line)),
        [word, words @ ..] => match verb_of(word) {
            Some(Verb::Command(verb)) => job_line(names, name, line, verb, words),
            _ => Err(bad(line)),
        },
    }
}

/// The job of a line of a burst.
fn job_read(names: &mut Interner, name: &[u8], line: &KeptLine<'_>) -> Result<BurstJob, ScriptError>
    ensures answer { Gives Memory (λ job.
        job) result (job_read name.now line.now.number line.now.reading line.now.words) }
    ensures well_formed { IfOk result IsWellFormedJob }
{
    match line.reading() {
        Reading::PastLimit => Err(past_limit(line.number())),
        Reading::Unreadable => Err(bad(line.number())),
        Reading::Readable => words_job(names, name, line.number(), line.words()),
    }
}

/// Whether the words are the one word `end`.
fn are_end(words: &[&[u8]]) -> bool
    ensures { result ≡ are_end (map (λ word. word.now) words.now) }
{
    match words {
        [word] => *word == b"end".as_slice(),
        _ => false,
    }
}

/// Whether the line ends a burst.
fn is_end(line: &KeptLine<'_>) -> bool
    ensures { result ≡ is_end line.now.reading line.now.words }
{
    match line.reading() {
        Reading::Readable => are_end(line.words()),
        Reading::Unreadable | Reading::PastLimit => false,
    }
}

/// The jobs of a burst at the cluster of this name, up to its line `end`.
#[tactic(auto, unfolding(crate::specs::Body::jobs_of))]
fn jobs_of(
    names: &mut Interner,
    end: u64,
    name: &[u8],
    lines: &[KeptLine<'_>],
) -> Result<Vec<BurstJob>, ScriptError>
    ensures answer { Gives Memory (λ jobs. jobs.items) result (jobs_of end name.now lines.now) }
    ensures well_formed { IfOk result (λ jobs. All IsWellFormedJob jobs.items) }
{
    let mut jobs = Vec::new(names.alloc());
    for line in lines {
        if is_end(line) {
            return Ok(jobs);
        }
        let job = job_read(names, name, line)?;
        jobs.push(job)?;
    }
    Err(bad(end))
}

/// `burst C`, by its words after the first and the lines after it.
#[tactic(auto, unfolding(crate::specs::Body::burst_line))]
fn burst_line(
    names: &mut Interner,
    header: &Header,
    end: u64,
    line: u64,
    words: &[&[u8]],
    lines: &[KeptLine<'_>],
) -> Result<Act, ScriptError>
    ensures answer { Gives Memory (λ act.
        act) result (burst_line header.now end line (map (λ word. word.now) words.now) lines.now) }
    ensures well_formed { IfOk result (IsWellFormedAct header.now) }
{
    match words {
        [name] => {
            let cluster = known(header, line, name)?;
            let jobs = jobs_of(names, end, name, lines)?;
            Ok(Act::Burst {
                cluster,
                jobs: Jobs::new(jobs),
            })
        }
        _ => Err(bad(line)),
    }
}

/// The line that begins with a verb, by its words after the first and the lines after it.
#[tactic(auto, unfolding(crate::specs::Body::verb_act))]
fn verb_act(
    names: &mut Interner,
    header: &Header,
    end: u64,
    line: u64,
    verb: Verb,
    words: &[&[u8]],
    lines: &[KeptLine<'_>],
) -> Result<Act, ScriptError>
    requires { IsWellFormedHeader header.now }
    ensures answer { Gives Memory (λ act.
        act) result (verb_act header.now end line verb
        (map (λ word. word.now) words.now) lines.now) }
    ensures well_formed { IfOk result (IsWellFormedAct header.now) }
{
    match verb {
        Verb::Command(command) => command_line(names, header, line, command, words),
        Verb::Burst => burst_line(names, header, end, line, words, lines),
        Verb::Register => register_line(names, header, line, words),
        Verb::Retain => retain_line(names, header, line, words),
        Verb::Domain(domain) => domain_line(names, header, line, domain, words),
        Verb::Target(target) => target_line(names, header, line, target, words),
        Verb::Handover => handover_line(names, header, line, words),
        Verb::Pair(pair) => pair_line(header, line, pair, words),
        Verb::Pull => pull_line(header, line, words),
        Verb::Place(place) => place_line(header, line, place, words),
        Verb::Places(places) => places_line(header, line, places, words),
        Verb::Levels => levels_line(header, line, words),
        Verb::Cluster(cluster) => cluster_line(header, line, cluster, words),
        Verb::Settle => settle_line(line, words),
        Verb::Workflow(workflow) => workflow_line(names, header, line, workflow, words),
        Verb::Compare => compare_line(names, header, line, words),
        Verb::Reset => reset_line(names, header, line, words),
        Verb::Beat => beat_line(names, header, line, words),
        Verb::Progress => progress_line(names, header, line, words),
    }
}

/// The line that these words are, by the first; the lines after it are those of a burst.
#[tactic(auto, unfolding(crate::specs::Body::words_act))]
fn words_act(
    names: &mut Interner,
    header: &Header,
    end: u64,
    line: u64,
    words: &[&[u8]],
    lines: &[KeptLine<'_>],
) -> Result<Act, ScriptError>
    requires { IsWellFormedHeader header.now }
    ensures answer { Gives Memory (λ act.
        act) result (words_act header.now end line (map (λ word. word.now) words.now) lines.now) }
    ensures well_formed { IfOk result (IsWellFormedAct header.now) }
{
    match words {
        [] => Err(bad(line)),
        [word, words @ ..] => match verb_of(word) {
            Some(verb) => verb_act(names, header, end, line, verb, words, lines),
            None => Err(bad(line)),
        },
    }
}

/// What a line asks for, with the lines after it.
fn act_read(
    names: &mut Interner,
    header: &Header,
    end: u64,
    line: &KeptLine<'_>,
    lines: &[KeptLine<'_>],
) -> Result<Act, ScriptError>
    requires { IsWellFormedHeader header.now }
    ensures answer { Gives Memory (λ act.
        act) result (act_read header.now end line.now.number line.now.reading line.now.words
        lines.now) }
    ensures well_formed { IfOk result (IsWellFormedAct header.now) }
{
    match line.reading() {
        Reading::PastLimit => Err(past_limit(line.number())),
        Reading::Unreadable => Err(bad(line.number())),
        Reading::Readable => words_act(names, header, end, line.number(), line.words(), lines),
    }
}

/// How many lines after the first belong to a line.
fn lines_within(act: &Act) -> usize
    ensures { result ≡ lines_within act.now }
{
    match act {
        Act::Burst { jobs, .. } => jobs.as_slice().len() + 1,
        _ => 0,
    }
}

/// The lines of the body, or the first faulty one. The line after the last has the number `end`.
#[tactic(auto, unfolding(crate::specs::Body::body_behind))]
pub fn body_of(
    names: &mut Interner,
    header: &Header,
    end: u64,
    lines: &[KeptLine<'_>],
) -> Result<Vec<Line>, ScriptError>
    requires { IsWellFormedHeader header.now }
    ensures answer { Gives Memory (λ body. body.items) result (body_of header.now end lines.now) }
    ensures well_formed { IfOk result (λ body. AreWellFormedLines header.now body.items) }
{
    let mut body = Vec::new(names.alloc());
    let mut within: usize = 0;
    for place in 0..lines.len() {
        if within > 0 {
            within -= 1;
        } else {
            let (_, behind) = lines.split_at(place + 1);
            let line = &lines[place];
            let act = act_read(names, header, end, line, behind)?;
            within = lines_within(&act);
            body.push(Line {
                number: line.number(),
                act,
            })?;
        }
    }
    Ok(body)
}
