ghost use Rattle.std.specs.Prelude.{◌≡◌, ◌+◌, ◌++◌, ◌∷◌, [], ◌<◌, ◌≤◌, ◌^◌, true, length, decimal, IfOk, OnOk};
ghost use Rattle.std.specs.List.{list_all};
ghost use Rattle.ndc_domain.specs.Members.{members_of};
ghost use Rattle.ndc_event.specs.Name.{is_name, is_name_byte};
ghost use Rattle.ndc_script_types.specs.Below.{clusters_below};
ghost use Rattle.ndc_script_types.specs.WellFormed.{IsWellFormed};
ghost use Rattle.ndc_script.specs.Generate.{generated_header, next_state, drawn, drawn_cluster, drawn_domain, drawn_number, drawn_workflow, drawn_target, drawn_other, drawn_command, drawn_move, generated_act, line_at, registering, telling, starting, first_lines, drawn_lines, generated_lines, generated_script};

use ndc_command::{Action, Actions, Command};
use ndc_domain::{ClusterNo, Clusters, Members};
use ndc_event::{Name, NameError, OutOfMemory};
use ndc_script_types::{Act, Header, Line, Lines, Script, clusters_below};
use std::alloc::{AllocError, Global};

/// The name of these bytes, which are one.
fn name_of(alloc: Global, bytes: &[u8]) -> Result<Name, OutOfMemory>
    requires { is_name bytes.now ≡ true }
    ensures { IfOk result (λ name. name ≡ bytes.now) }
{
    match Name::new(alloc, bytes) {
        Ok(name) => Ok(name),
        Err(NameError::Memory) => Err(AllocError),
        Err(_) => unreachable!(),
    }
}

/// Some bytes and a number.
fn numbered(alloc: Global, front: &[u8], number: u64) -> Result<Vec<u8>, OutOfMemory>
    ensures { IfOk result (λ text. text.items ≡ front.now ++ decimal number) }
{
    let mut text = Vec::from_slice(alloc, front)?;
    let mut buffer = itoa::Buffer::new();
    text.extend_from_slice(buffer.format(number).as_bytes())?;
    Ok(text)
}

/// The name of some bytes and a number.
fn numbered_name(alloc: Global, front: &[u8], number: u64) -> Result<Name, OutOfMemory>
    requires bytes { list_all is_name_byte front.now ≡ true }
    requires short { length front.now ≤ 1 }
    requires small { number < 10 ^ 18 }
    ensures { IfOk result (λ name. name ≡ front.now ++ decimal number) }
{
    let text = numbered(alloc, front, number)?;
    name_of(alloc, text.as_slice())
}

/// The state after a state, by arithmetic modulo 2^64.
#[tactic(auto, unfolding(crate::specs::Generate::next_state))]
fn next_state(state: u64) -> u64
    ensures { result ≡ next_state state }
{
    let wide = u128::from(state) * 6_364_136_223_846_793_005 + 1_442_695_040_888_963_407;
    (wide % 18_446_744_073_709_551_616) as u64
}

/// What a state draws: its upper 31 bits.
#[tactic(auto, unfolding(crate::specs::Generate::drawn))]
fn drawn(state: u64) -> u64
    ensures { result ≡ drawn state }
{
    state / 8_589_934_592
}

/// The cluster of a draw.
fn drawn_cluster(draw: u64) -> ClusterNo
    ensures { result ≡ drawn_cluster draw }
{
    ClusterNo {
        number: (draw / 10 % 3) as u32,
    }
}

/// The domain of a draw.
#[tactic(auto, unfolding(crate::specs::Generate::drawn_domain))]
fn drawn_domain(alloc: Global, draw: u64) -> Result<Name, OutOfMemory>
    ensures { IfOk result (λ name. name ≡ drawn_domain draw) }
{
    if draw / 30 % 2 == 0 {
        name_of(alloc, b"alpha")
    } else {
        name_of(alloc, b"beta")
    }
}

/// The number of a draw's workflow, below 16.
fn drawn_number(draw: u64) -> u64
    ensures value { result ≡ drawn_number draw }
    ensures below { result < 16 }
{
    draw / 60 % 16
}

/// The workflow of a draw.
#[tactic(auto, unfolding(crate::specs::Generate::drawn_workflow))]
fn drawn_workflow(alloc: Global, draw: u64) -> Result<Name, OutOfMemory>
    ensures { IfOk result (λ name. name ≡ drawn_workflow draw) }
{
    numbered_name(alloc, b"w", drawn_number(draw))
}

/// The cluster that a failover of a draw makes active.
fn drawn_target(draw: u64) -> ClusterNo
    ensures { result ≡ drawn_target draw }
{
    ClusterNo {
        number: (drawn_number(draw) % 3) as u32,
    }
}

/// Another cluster than that of the draw.
fn drawn_other(draw: u64) -> ClusterNo
    ensures { result ≡ drawn_other draw }
{
    ClusterNo {
        number: ((draw / 10 % 3 + 1 + drawn_number(draw) % 2) % 3) as u32,
    }
}

/// The command of a draw of kind 0 to 5 for a place.
fn drawn_command(alloc: Global, place: u64, kind: u64) -> Result<Command, OutOfMemory>
    requires { place < 10 ^ 18 }
    ensures { IfOk result (λ command. command ≡ drawn_command place kind) }
{
    if kind == 0 {
        Ok(Command::Start {
            workflow_type: name_of(alloc, b"order")?,
        })
    } else if kind <= 3 {
        Ok(Command::Signal {
            name: name_of(alloc, b"ping")?,
            input: numbered_name(alloc, b"", place)?,
        })
    } else if kind == 4 {
        Ok(Command::Decide)
    } else {
        let mut actions = Vec::new(alloc);
        actions.push(Action::Timer {
            id: numbered_name(alloc, b"t", place)?,
        })?;
        Ok(Command::Respond {
            actions: Actions::new(actions),
        })
    }
}

/// What the line of a draw of kind 6 to 9 asks for.
fn drawn_move(alloc: Global, draw: u64, kind: u64) -> Result<Act, OutOfMemory>
    ensures { IfOk result (λ act. act ≡ drawn_move draw kind) }
{
    if kind == 6 {
        Ok(Act::Failover {
            at: drawn_cluster(draw),
            domain: drawn_domain(alloc, draw)?,
            target: drawn_target(draw),
        })
    } else if kind == 7 {
        Ok(Act::Domains {
            to: drawn_cluster(draw),
            from: drawn_other(draw),
        })
    } else if kind == 8 {
        Ok(Act::Pull {
            reader: drawn_cluster(draw),
            source: drawn_other(draw),
        })
    } else {
        Ok(Act::Work {
            cluster: drawn_cluster(draw),
        })
    }
}

/// What the line at a place, counted from 1, asks for, by its draw.
#[tactic(auto, unfolding(crate::specs::Generate::generated_act))]
fn generated_act(alloc: Global, place: u64, draw: u64) -> Result<Act, OutOfMemory>
    requires { place < 10 ^ 18 }
    ensures { IfOk result (λ act. act ≡ generated_act place draw) }
{
    let kind = draw % 10;
    if kind <= 5 {
        Ok(Act::Command {
            cluster: drawn_cluster(draw),
            domain: drawn_domain(alloc, draw)?,
            workflow: drawn_workflow(alloc, draw)?,
            command: drawn_command(alloc, place, kind)?,
        })
    } else {
        drawn_move(alloc, draw, kind)
    }
}

/// The header of generated scripts.
fn generated_header(alloc: Global) -> Result<Header, OutOfMemory>
    ensures { IfOk result (λ header. header ≡ generated_header) }
{
    let mut members = Vec::new(alloc);
    members.push((name_of(alloc, b"A")?, 1))?;
    members.push((name_of(alloc, b"B")?, 2))?;
    members.push((name_of(alloc, b"C")?, 3))?;
    match Clusters::build(10, members) {
        Ok(clusters) => Ok(Header {
            clusters,
            shards: 8,
            limit: 1_000,
        }),
        Err(_) => unreachable!(),
    }
}

/// The members of generated domains: all clusters.
fn all_members(alloc: Global) -> Result<Members, OutOfMemory>
    ensures { IfOk result (λ members. members ≡ members_of (clusters_below 3)) }
{
    let clusters = clusters_below(alloc, 3)?;
    Ok(Members::of(clusters.as_slice()))
}

/// The line that registers a domain of generated scripts.
fn registering(alloc: Global, domain: &[u8], target: u32) -> Result<Act, OutOfMemory>
    requires { is_name domain.now ≡ true }
    ensures { IfOk result (λ act. act ≡ registering domain.now target) }
{
    Ok(Act::Register {
        at: ClusterNo { number: 0 },
        domain: name_of(alloc, domain)?,
        target: ClusterNo { number: target },
        days: 7,
        members: all_members(alloc)?,
    })
}

/// The line that tells a cluster of the first one's domains.
fn telling(to: u32) -> Act
    ensures { result ≡ telling to }
{
    Act::Domains {
        to: ClusterNo { number: to },
        from: ClusterNo { number: 0 },
    }
}

/// The line that starts a first workflow of generated scripts.
fn starting(alloc: Global, cluster: u32, domain: &[u8]) -> Result<Act, OutOfMemory>
    requires { is_name domain.now ≡ true }
    ensures { IfOk result (λ act. act ≡ starting cluster domain.now) }
{
    Ok(Act::Command {
        cluster: ClusterNo { number: cluster },
        domain: name_of(alloc, domain)?,
        workflow: name_of(alloc, b"w0")?,
        command: Command::Start {
            workflow_type: name_of(alloc, b"order")?,
        },
    })
}

/// The first lines of generated scripts.
fn first_lines(alloc: Global) -> Result<Vec<Line>, OutOfMemory>
    ensures { IfOk result (λ lines. lines.items ≡ first_lines) }
{
    let alpha = registering(alloc, b"alpha", 0)?;
    let beta = registering(alloc, b"beta", 1)?;
    let one = starting(alloc, 0, b"alpha")?;
    let two = starting(alloc, 1, b"beta")?;
    let mut lines = Vec::new(alloc);
    push_act(&mut lines, 8, alpha)?;
    push_act(&mut lines, 9, beta)?;
    push_act(&mut lines, 10, telling(1))?;
    push_act(&mut lines, 11, telling(2))?;
    push_act(&mut lines, 12, one)?;
    push_act(&mut lines, 13, two)?;
    Ok(lines)
}

/// Appends a line.
fn push_act(lines: &mut Vec<Line>, number: u64, act: Act) -> Result<(), OutOfMemory>
    ensures { OnOk result (lines.new.items ≡ lines.old.items ++ line_at number act ∷ []) }
{
    lines.push(Line { number, act })?;
    Ok(())
}

/// Appends the generated lines from a seed on.
fn push_drawn(
    alloc: Global,
    lines: &mut Vec<Line>,
    count: u64,
    seed: u64,
) -> Result<(), OutOfMemory>
    requires { count ≤ 99000 }
    ensures { OnOk result (lines.new.items ≡ lines.old.items ++ drawn_lines count 1 seed) }
{
    let mut state = seed;
    for place in 0..count {
        state = next_state(state);
        let act = generated_act(alloc, place + 1, drawn(state))?;
        push_act(lines, 14 + place, act)?;
    }
    Ok(())
}

/// The script of so many generated lines from a seed.
fn script_of(alloc: Global, count: u64, seed: u64) -> Result<Script, OutOfMemory>
    requires { count ≤ 99000 }
    ensures { IfOk result (λ script. script ≡ generated_script count seed) }
{
    let header = generated_header(alloc)?;
    let mut lines = first_lines(alloc)?;
    push_drawn(alloc, &mut lines, count, seed)?;
    push_act(&mut lines, 14 + count, Act::Settle)?;
    Ok(Script {
        header,
        lines: Lines::new(lines),
    })
}

/// The script of `count` generated lines, 1 to 99,000, from a seed: three clusters, two domains, the drawn lines
/// and `settle`. The seed goes on by x * 6364136223846793005 + 1442695040888963407 modulo 2^64 for each line.
pub fn generate(alloc: Global, count: u64, seed: u64) -> Result<Script, OutOfMemory>
    requires least { 1 ≤ count }
    requires most { count ≤ 99000 }
    ensures script { IfOk result (λ script. script ≡ generated_script count seed) }
    ensures well_formed { IfOk result IsWellFormed }
{
    let script = script_of(alloc, count, seed)?;
    Ok(script)
}
