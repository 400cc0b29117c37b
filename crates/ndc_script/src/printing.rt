ghost use Rattle.std.specs.Prelude.{◌≡◌, ◌++◌, ◌∷◌, [], if◌then◌else◌, map, flat_map, codes, decimal, OnOk, IfOk};
ghost use Rattle.std.specs.Str.{bytes_eq};
ghost use Rattle.ndc_domain.specs.Clusters.{count_of, name_of};
ghost use Rattle.ndc_domain.specs.Members.{AreMembers, has_member, members_of};
ghost use Rattle.ndc_script_types.specs.Below.{clusters_below};
ghost use Rattle.ndc_script_types.specs.Print.{behind_spaces, line_text, lines_text, cluster_line_of, header_lines, action_words, command_words, job_words, member_name, member_words, act_lines, script_text};
ghost use Rattle.ndc_script_types.specs.WellFormed.{IsWellFormed, IsWellFormedAct};

use ndc_command::{Action, Command};
use ndc_domain::{ClusterNo, Clusters, Members};
use ndc_event::{Name, OutOfMemory};
use ndc_script_types::{Act, BurstJob, Header, Script, clusters_below};
use std::alloc::Global;

/// Appends a number after a space.
fn push_number(text: &mut Vec<u8>, number: u64) -> Result<(), OutOfMemory>
    ensures { OnOk result (text.new.items ≡ text.old.items ++ 32 ∷ decimal number) }
{
    let mut buffer = itoa::Buffer::new();
    text.extend_from_slice(b" ")?;
    text.extend_from_slice(buffer.format(number).as_bytes())
}

/// Appends a word after a space.
fn push_word(text: &mut Vec<u8>, word: &[u8]) -> Result<(), OutOfMemory>
    ensures { OnOk result (text.new.items ≡ text.old.items ++ 32 ∷ word.now) }
{
    text.extend_from_slice(b" ")?;
    text.extend_from_slice(word)
}

/// Appends words, each after a space.
fn push_words(text: &mut Vec<u8>, words: &[&[u8]]) -> Result<(), OutOfMemory>
    ensures { OnOk result (text.new.items
        ≡ text.old.items ++ behind_spaces (map (λ word. word.now) words.now)) }
{
    for word in words {
        push_word(text, word)?;
    }
    Ok(())
}

/// Appends numbers, each after a space.
fn push_numbers(text: &mut Vec<u8>, numbers: &[u64]) -> Result<(), OutOfMemory>
    ensures { OnOk result (text.new.items
        ≡ text.old.items ++ behind_spaces (map decimal numbers.now)) }
{
    for number in numbers {
        push_number(text, *number)?;
    }
    Ok(())
}

/// Appends a line: its first word, further words, and numbers.
fn push_line(
    text: &mut Vec<u8>,
    word: &[u8],
    words: &[&[u8]],
    numbers: &[u64],
) -> Result<(), OutOfMemory>
    ensures { OnOk result (text.new.items
        ≡ text.old.items ++ line_text
        (word.now ∷ map (λ word. word.now) words.now ++ map decimal numbers.now)) }
{
    text.extend_from_slice(word)?;
    push_words(text, words)?;
    push_numbers(text, numbers)?;
    text.extend_from_slice(b"\n")?;
    Ok(())
}

/// Appends the words of an action, each after a space.
fn push_action(text: &mut Vec<u8>, action: &Action) -> Result<(), OutOfMemory>
    ensures { OnOk result (text.new.items
        ≡ text.old.items ++ behind_spaces (action_words action.now)) }
{
    match action {
        Action::Activity { id, activity_type } => push_words(
            text,
            &[
                b"activity".as_slice(),
                id.as_bytes(),
                activity_type.as_bytes(),
            ],
        ),
        Action::Timer { id } => push_words(text, &[b"timer".as_slice(), id.as_bytes()]),
        Action::Untimer { id } => push_words(text, &[b"untimer".as_slice(), id.as_bytes()]),
        Action::Child { id, workflow_type } => push_words(
            text,
            &[b"child".as_slice(), id.as_bytes(), workflow_type.as_bytes()],
        ),
        Action::Marker { name } => push_words(text, &[b"marker".as_slice(), name.as_bytes()]),
        Action::Complete { result } => push_words(
            text,
            &[b"complete".as_slice(), result.as_bytes()],
        ),
        Action::Fail { reason } => push_words(text, &[b"fail".as_slice(), reason.as_bytes()]),
        Action::Canceled => push_words(text, &[b"canceled".as_slice()]),
        Action::Continue { workflow_type } => push_words(
            text,
            &[b"continue".as_slice(), workflow_type.as_bytes()],
        ),
    }
}

/// Appends a line `respond`.
fn push_respond(
    text: &mut Vec<u8>,
    cluster: &[u8],
    domain: &Name,
    workflow: &Name,
    actions: &[Action],
) -> Result<(), OutOfMemory>
    ensures { OnOk result (text.new.items
        ≡ text.old.items ++ line_text
        (codes "respond" ∷ cluster.now ∷ domain.now ∷ workflow.now
        ∷ flat_map action_words actions.now)) }
{
    text.extend_from_slice(b"respond")?;
    push_words(text, &[cluster, domain.as_bytes(), workflow.as_bytes()])?;
    push_actions(text, actions)?;
    text.extend_from_slice(b"\n")
}

/// Appends the words of actions, each after a space.
fn push_actions(text: &mut Vec<u8>, actions: &[Action]) -> Result<(), OutOfMemory>
    ensures { OnOk result (text.new.items
        ≡ text.old.items ++ behind_spaces (flat_map action_words actions.now)) }
{
    for action in actions {
        push_action(text, action)?;
    }
    Ok(())
}

/// Appends a command line to a workflow at the cluster of this name.
fn push_command(
    text: &mut Vec<u8>,
    cluster: &[u8],
    domain: &Name,
    workflow: &Name,
    command: &Command,
) -> Result<(), OutOfMemory>
    ensures { OnOk result (text.new.items
        ≡ text.old.items ++ line_text
        (command_words cluster.now domain.now workflow.now command.now)) }
{
    let d = domain.as_bytes();
    let w = workflow.as_bytes();
    match command {
        Command::Start { workflow_type } => push_line(
            text,
            b"start",
            &[cluster, d, w, workflow_type.as_bytes()],
            &[],
        ),
        Command::Signal { name, input } => push_line(
            text,
            b"signal",
            &[cluster, d, w, name.as_bytes(), input.as_bytes()],
            &[],
        ),
        Command::Cancel => push_line(text, b"cancel", &[cluster, d, w], &[]),
        Command::Terminate { reason } => push_line(
            text,
            b"terminate",
            &[cluster, d, w, reason.as_bytes()],
            &[],
        ),
        Command::Decide => push_line(text, b"decide", &[cluster, d, w], &[]),
        Command::FailDecision { cause } => push_line(
            text,
            b"faildecision",
            &[cluster, d, w, cause.as_bytes()],
            &[],
        ),
        Command::TimeoutDecision => push_line(text, b"timeoutdecision", &[cluster, d, w], &[]),
        Command::ActivityStart { id } => push_line(
            text,
            b"actstart",
            &[cluster, d, w, id.as_bytes()],
            &[],
        ),
        Command::ActivityDone { id, result } => push_line(
            text,
            b"actdone",
            &[cluster, d, w, id.as_bytes(), result.as_bytes()],
            &[],
        ),
        Command::ActivityFail { id, reason } => push_line(
            text,
            b"actfail",
            &[cluster, d, w, id.as_bytes(), reason.as_bytes()],
            &[],
        ),
        Command::ActivityTimeout { id } => push_line(
            text,
            b"acttimeout",
            &[cluster, d, w, id.as_bytes()],
            &[],
        ),
        Command::Fire { id } => push_line(text, b"fire", &[cluster, d, w, id.as_bytes()], &[]),
        Command::ChildStart { id } => push_line(
            text,
            b"childstart",
            &[cluster, d, w, id.as_bytes()],
            &[],
        ),
        Command::ChildDone { id, result } => push_line(
            text,
            b"childdone",
            &[cluster, d, w, id.as_bytes(), result.as_bytes()],
            &[],
        ),
        Command::ChildFail { id, reason } => push_line(
            text,
            b"childfail",
            &[cluster, d, w, id.as_bytes(), reason.as_bytes()],
            &[],
        ),
        Command::Respond { actions } => push_respond(
            text,
            cluster,
            domain,
            workflow,
            actions.as_slice(),
        ),
    }
}

/// The name of a cluster of the header; nothing of another one.
fn name_of<'a>(header: &'a Header, cluster: ClusterNo) -> &'a [u8]
    ensures { result.now ≡ name_of header.now.clusters cluster }
{
    if cluster.number < header.clusters.count() {
        header.clusters.name(cluster).as_bytes()
    } else {
        b""
    }
}

/// Appends the name of a cluster after a space, where it is a member.
fn push_member(
    text: &mut Vec<u8>,
    header: &Header,
    members: Members,
    number: u32,
) -> Result<(), OutOfMemory>
    ensures { OnOk result (text.new.items
        ≡ text.old.items ++ behind_spaces
        (if has_member members number then member_name header.now number ∷ [] else [])) }
{
    let cluster = ClusterNo { number };
    if members.has(cluster) {
        push_word(text, name_of(header, cluster))?;
    }
    Ok(())
}

/// Appends the names of members, each after a space.
fn push_members(text: &mut Vec<u8>, header: &Header, members: Members) -> Result<(), OutOfMemory>
    requires { AreMembers members }
    ensures { OnOk result (text.new.items
        ≡ text.old.items ++ behind_spaces (map (member_name header.now) members)) }
{
    for number in 0..8 {
        push_member(text, header, members, number)?;
    }
    Ok(())
}

/// Whether the members are all clusters of the header.
fn are_all(alloc: Global, header: &Header, members: Members) -> Result<bool, OutOfMemory>
    ensures { IfOk result (λ all.
        all ≡ bytes_eq members (members_of (clusters_below (count_of header.now.clusters)))) }
{
    let clusters = clusters_below(alloc, header.clusters.count())?;
    Ok(members == Members::of(clusters.as_slice()))
}

/// Appends the words CLUSTER of a line `register`, each after a space.
fn push_member_words(
    alloc: Global,
    text: &mut Vec<u8>,
    header: &Header,
    members: Members,
) -> Result<(), OutOfMemory>
    requires { AreMembers members }
    ensures { OnOk result (text.new.items
        ≡ text.old.items ++ behind_spaces (member_words header.now members)) }
{
    if are_all(alloc, header, members)? {
        Ok(())
    } else {
        push_members(text, header, members)
    }
}

/// Appends a line `register`.
fn push_register(
    alloc: Global,
    text: &mut Vec<u8>,
    header: &Header,
    at: ClusterNo,
    domain: &Name,
    target: ClusterNo,
    days: u32,
    members: Members,
) -> Result<(), OutOfMemory>
    requires { AreMembers members }
    ensures { OnOk result (text.new.items
        ≡ text.old.items ++ line_text
        (codes "register" ∷ name_of header.now.clusters at ∷ domain.now
        ∷ name_of header.now.clusters target ∷ decimal days ∷ member_words header.now members)) }
{
    text.extend_from_slice(b"register")?;
    push_words(
        text,
        &[
            name_of(header, at),
            domain.as_bytes(),
            name_of(header, target),
        ],
    )?;
    push_number(text, u64::from(days))?;
    push_member_words(alloc, text, header, members)?;
    text.extend_from_slice(b"\n")?;
    Ok(())
}

/// Appends the lines of a burst after its first.
fn push_jobs(text: &mut Vec<u8>, cluster: &[u8], jobs: &[BurstJob]) -> Result<(), OutOfMemory>
    ensures { OnOk result (text.new.items
        ≡ text.old.items ++ lines_text (map (job_words cluster.now) jobs.now)) }
{
    for job in jobs {
        push_command(text, cluster, &job.domain, &job.workflow, &job.command)?;
    }
    Ok(())
}

/// Appends a burst.
fn push_burst(text: &mut Vec<u8>, cluster: &[u8], jobs: &[BurstJob]) -> Result<(), OutOfMemory>
    ensures { OnOk result (text.new.items
        ≡ text.old.items ++ lines_text
        ((codes "burst" ∷ cluster.now ∷ []) ∷ map (job_words cluster.now) jobs.now
        ++ (codes "end" ∷ []) ∷ [])) }
{
    push_line(text, b"burst", &[cluster], &[])?;
    push_jobs(text, cluster, jobs)?;
    push_line(text, b"end", &[], &[])
}

/// Appends the lines of an act.
fn push_act(
    alloc: Global,
    text: &mut Vec<u8>,
    header: &Header,
    act: &Act,
) -> Result<(), OutOfMemory>
    requires { IsWellFormedAct header.now act.now }
    ensures { OnOk result (text.new.items
        ≡ text.old.items ++ lines_text (act_lines header.now act.now)) }
{
    match act {
        Act::Command {
            cluster,
            domain,
            workflow,
            command,
        } => push_command(text, name_of(header, *cluster), domain, workflow, command),
        Act::Burst { cluster, jobs } => push_burst(
            text,
            name_of(header, *cluster),
            jobs.as_slice(),
        ),
        Act::Register {
            at,
            domain,
            target,
            days,
            members,
        } => push_register(alloc, text, header, *at, domain, *target, *days, *members),
        Act::Retain { at, domain, days } => push_line(
            text,
            b"retain",
            &[name_of(header, *at), domain.as_bytes()],
            &[u64::from(*days)],
        ),
        Act::Join { at, domain, member } => push_line(
            text,
            b"join",
            &[
                name_of(header, *at),
                domain.as_bytes(),
                name_of(header, *member),
            ],
            &[],
        ),
        Act::Failover { at, domain, target } => push_line(
            text,
            b"failover",
            &[
                name_of(header, *at),
                domain.as_bytes(),
                name_of(header, *target),
            ],
            &[],
        ),
        Act::Domains { to, from } => push_line(
            text,
            b"domains",
            &[name_of(header, *to), name_of(header, *from)],
            &[],
        ),
        Act::Domain { at, domain } => push_line(
            text,
            b"domain",
            &[name_of(header, *at), domain.as_bytes()],
            &[],
        ),
        Act::MembersOf { at, domain } => push_line(
            text,
            b"members",
            &[name_of(header, *at), domain.as_bytes()],
            &[],
        ),
        Act::Pull { reader, source } => push_line(
            text,
            b"pull",
            &[name_of(header, *reader), name_of(header, *source)],
            &[],
        ),
        Act::PullSome {
            reader,
            source,
            shard,
            count,
        } => push_line(
            text,
            b"pull",
            &[name_of(header, *reader), name_of(header, *source)],
            &[u64::from(*shard), *count],
        ),
        Act::Lose {
            reader,
            source,
            shard,
            place,
        } => push_line(
            text,
            b"lose",
            &[name_of(header, *reader), name_of(header, *source)],
            &[u64::from(*shard), *place as u64],
        ),
        Act::Repeat {
            reader,
            source,
            shard,
            place,
        } => push_line(
            text,
            b"repeat",
            &[name_of(header, *reader), name_of(header, *source)],
            &[u64::from(*shard), *place as u64],
        ),
        Act::Move {
            reader,
            source,
            shard,
            place,
            to,
        } => push_line(
            text,
            b"move",
            &[name_of(header, *reader), name_of(header, *source)],
            &[u64::from(*shard), *place as u64, *to as u64],
        ),
        Act::Work { cluster } => push_line(text, b"work", &[name_of(header, *cluster)], &[]),
        Act::Rewind { reader, source } => push_line(
            text,
            b"rewind",
            &[name_of(header, *reader), name_of(header, *source)],
            &[],
        ),
        Act::Trim { source } => push_line(text, b"trim", &[name_of(header, *source)], &[]),
        Act::LevelsOf {
            reader,
            source,
            shard,
        } => push_line(
            text,
            b"levels",
            &[name_of(header, *reader), name_of(header, *source)],
            &[u64::from(*shard)],
        ),
        Act::Gaps { cluster } => push_line(text, b"gaps", &[name_of(header, *cluster)], &[]),
        Act::Resend { cluster } => push_line(text, b"resend", &[name_of(header, *cluster)], &[]),
        Act::Bootstrap { reader, source } => push_line(
            text,
            b"bootstrap",
            &[name_of(header, *reader), name_of(header, *source)],
            &[],
        ),
        Act::Settle => push_line(text, b"settle", &[], &[]),
        Act::History {
            cluster,
            domain,
            workflow,
        } => push_line(
            text,
            b"history",
            &[
                name_of(header, *cluster),
                domain.as_bytes(),
                workflow.as_bytes(),
            ],
            &[],
        ),
        Act::Branches {
            cluster,
            domain,
            workflow,
        } => push_line(
            text,
            b"branches",
            &[
                name_of(header, *cluster),
                domain.as_bytes(),
                workflow.as_bytes(),
            ],
            &[],
        ),
        Act::Current {
            cluster,
            domain,
            workflow,
        } => push_line(
            text,
            b"current",
            &[
                name_of(header, *cluster),
                domain.as_bytes(),
                workflow.as_bytes(),
            ],
            &[],
        ),
        Act::StateOf {
            cluster,
            domain,
            workflow,
        } => push_line(
            text,
            b"state",
            &[
                name_of(header, *cluster),
                domain.as_bytes(),
                workflow.as_bytes(),
            ],
            &[],
        ),
        Act::Dump {
            cluster,
            domain,
            workflow,
        } => push_line(
            text,
            b"dump",
            &[
                name_of(header, *cluster),
                domain.as_bytes(),
                workflow.as_bytes(),
            ],
            &[],
        ),
        Act::Compare {
            one,
            two,
            domain,
            workflow,
        } => push_line(
            text,
            b"compare",
            &[
                name_of(header, *one),
                name_of(header, *two),
                domain.as_bytes(),
                workflow.as_bytes(),
            ],
            &[],
        ),
        Act::Handover { at, domain, target } => push_line(
            text,
            b"handover",
            &[
                name_of(header, *at),
                domain.as_bytes(),
                name_of(header, *target),
            ],
            &[],
        ),
        Act::Complete { at, domain } => push_line(
            text,
            b"complete",
            &[name_of(header, *at), domain.as_bytes()],
            &[],
        ),
        Act::Reset {
            cluster,
            domain,
            workflow,
            event,
        } => push_line(
            text,
            b"reset",
            &[
                name_of(header, *cluster),
                domain.as_bytes(),
                workflow.as_bytes(),
            ],
            &[*event],
        ),
        Act::Damage {
            reader,
            source,
            shard,
            place,
            cut,
        } => push_line(
            text,
            b"damage",
            &[name_of(header, *reader), name_of(header, *source)],
            &[u64::from(*shard), *place as u64, *cut as u64],
        ),
        Act::LettersOf { reader } => push_line(text, b"letters", &[name_of(header, *reader)], &[]),
        Act::Purge { reader } => push_line(text, b"purge", &[name_of(header, *reader)], &[]),
        Act::MergeLetters { reader } => push_line(
            text,
            b"mergeletters",
            &[name_of(header, *reader)],
            &[],
        ),
        Act::Beat {
            cluster,
            domain,
            workflow,
            id,
            details,
        } => push_line(
            text,
            b"beat",
            &[
                name_of(header, *cluster),
                domain.as_bytes(),
                workflow.as_bytes(),
                id.as_bytes(),
                details.as_bytes(),
            ],
            &[],
        ),
        Act::Sync { to, from } => push_line(
            text,
            b"sync",
            &[name_of(header, *to), name_of(header, *from)],
            &[],
        ),
        Act::ProgressOf {
            cluster,
            domain,
            workflow,
            id,
        } => push_line(
            text,
            b"progress",
            &[
                name_of(header, *cluster),
                domain.as_bytes(),
                workflow.as_bytes(),
                id.as_bytes(),
            ],
            &[],
        ),
    }
}

/// Appends a header.
fn push_header(text: &mut Vec<u8>, header: &Header) -> Result<(), OutOfMemory>
    ensures { OnOk result (text.new.items
        ≡ text.old.items ++ lines_text (header_lines header.now)) }
{
    push_line(text, b"ndc", &[], &[1])?;
    push_line(text, b"increment", &[], &[header.clusters.increment()])?;
    push_line(text, b"shards", &[], &[u64::from(header.shards)])?;
    push_line(text, b"limit", &[], &[header.limit])?;
    push_clusters(text, &header.clusters)
}

/// Appends the cluster lines.
fn push_clusters(text: &mut Vec<u8>, clusters: &Clusters) -> Result<(), OutOfMemory>
    ensures { OnOk result (text.new.items
        ≡ text.old.items ++ lines_text (map cluster_line_of clusters.now.members)) }
{
    for number in 0..clusters.count() {
        let cluster = ClusterNo { number };
        push_line(
            text,
            b"cluster",
            &[clusters.name(cluster).as_bytes()],
            &[clusters.initial(cluster)],
        )?;
    }
    Ok(())
}

/// Prints a script: its header and its lines in order, words separated by one space, each line ended by a newline.
pub fn print(alloc: Global, script: &Script) -> Result<Vec<u8>, OutOfMemory>
    requires { IsWellFormed script.now }
    ensures { IfOk result (λ text. text.items ≡ script_text script.now) }
{
    let mut text = Vec::new(alloc);
    push_header(&mut text, &script.header)?;
    for line in script.lines.as_slice() {
        push_act(alloc, &mut text, &script.header, &line.act)?;
    }
    Ok(text)
}
