ghost use Rattle.std.specs.Prelude.{◌≡◌, map, IfOk};
ghost use Rattle.ndc_event.specs.Outcome.{Gives};
ghost use Rattle.ndc_script_types.specs.declared.script.ScriptError.TheVariants.{Memory};
ghost use Rattle.ndc_script_read.specs.Commands.{bare_command, named_command, paired_command, named_action, paired_action, closing_action, named_group, paired_group, closing_group, canceled_group, group_by, group_of, actions_behind, actions_of, bare_of, named_of, paired_of, respond_of, command_of, command_line};
ghost use Rattle.ndc_script_types.specs.WellFormed.{IsName, IsWellFormedAction, AreWellFormedActions, IsWellFormedCommand, IsWellFormedAct};

use ndc_command::{Action, Actions, Command};
use ndc_event::Name;
use ndc_script_types::{Act, Header, ScriptError};
use ndc_script_words::{
    ActionVerb, BareCommand, ClosingAction, CommandVerb, Interner, NamedAction, NamedCommand,
    PairedAction, PairedCommand, action_verb, bad, named, workflow_at,
};

/// An action, and how many words after its first belong to it.
#[derive(Drop)]
pub struct Group {
    /// The action.
    pub action: Action,
    /// How many words after its first belong to it.
    pub operands: usize,
}

/// The command of a verb that needs no name.
fn bare_command(verb: BareCommand) -> Command
    ensures { result ≡ bare_command verb }
{
    match verb {
        BareCommand::Cancel => Command::Cancel,
        BareCommand::Decide => Command::Decide,
        BareCommand::TimeoutDecision => Command::TimeoutDecision,
    }
}

/// The command of a verb that needs one name.
fn named_command(verb: NamedCommand, name: Name) -> Command
    ensures { result ≡ named_command verb name }
{
    match verb {
        NamedCommand::Start => Command::Start {
            workflow_type: name,
        },
        NamedCommand::Terminate => Command::Terminate { reason: name },
        NamedCommand::FailDecision => Command::FailDecision { cause: name },
        NamedCommand::ActivityStart => Command::ActivityStart { id: name },
        NamedCommand::ActivityTimeout => Command::ActivityTimeout { id: name },
        NamedCommand::Fire => Command::Fire { id: name },
        NamedCommand::ChildStart => Command::ChildStart { id: name },
    }
}

/// The command of a verb that needs two names.
fn paired_command(verb: PairedCommand, one: Name, two: Name) -> Command
    ensures { result ≡ paired_command verb one two }
{
    match verb {
        PairedCommand::Signal => Command::Signal {
            name: one,
            input: two,
        },
        PairedCommand::ActivityDone => Command::ActivityDone {
            id: one,
            result: two,
        },
        PairedCommand::ActivityFail => Command::ActivityFail {
            id: one,
            reason: two,
        },
        PairedCommand::ChildDone => Command::ChildDone {
            id: one,
            result: two,
        },
        PairedCommand::ChildFail => Command::ChildFail {
            id: one,
            reason: two,
        },
    }
}

/// The action of a verb that needs one name and leaves the run open.
fn named_action(verb: NamedAction, name: Name) -> Action
    ensures { result ≡ named_action verb name }
{
    match verb {
        NamedAction::Timer => Action::Timer { id: name },
        NamedAction::Untimer => Action::Untimer { id: name },
        NamedAction::Marker => Action::Marker { name },
    }
}

/// The action of a verb that needs two names.
fn paired_action(verb: PairedAction, one: Name, two: Name) -> Action
    ensures { result ≡ paired_action verb one two }
{
    match verb {
        PairedAction::Activity => Action::Activity {
            id: one,
            activity_type: two,
        },
        PairedAction::Child => Action::Child {
            id: one,
            workflow_type: two,
        },
    }
}

/// The action of a verb that needs one name and closes the run.
fn closing_action(verb: ClosingAction, name: Name) -> Action
    ensures { result ≡ closing_action verb name }
{
    match verb {
        ClosingAction::Complete => Action::Complete { result: name },
        ClosingAction::Fail => Action::Fail { reason: name },
        ClosingAction::Continue => Action::Continue {
            workflow_type: name,
        },
    }
}

/// A group of an action and one name.
#[tactic(auto, unfolding(crate::specs::Commands::named_group))]
fn named_group(
    names: &mut Interner,
    line: u64,
    verb: NamedAction,
    words: &[&[u8]],
) -> Result<Group, ScriptError>
    ensures { Gives Memory (λ group.
        group) result (named_group line verb (map (λ word. word.now) words.now)) }
{
    match words {
        [name, ..] => {
            let name = named(names, line, name)?;
            Ok(Group {
                action: named_action(verb, name),
                operands: 1,
            })
        }
        _ => Err(bad(line)),
    }
}

/// A group of an action and two names.
#[tactic(auto, unfolding(crate::specs::Commands::paired_group))]
fn paired_group(
    names: &mut Interner,
    line: u64,
    verb: PairedAction,
    words: &[&[u8]],
) -> Result<Group, ScriptError>
    ensures { Gives Memory (λ group.
        group) result (paired_group line verb (map (λ word. word.now) words.now)) }
{
    match words {
        [one, two, ..] => {
            let one = named(names, line, one)?;
            let two = named(names, line, two)?;
            Ok(Group {
                action: paired_action(verb, one, two),
                operands: 2,
            })
        }
        _ => Err(bad(line)),
    }
}

/// A group of an action that closes the run and one name; it stands last.
#[tactic(auto, unfolding(crate::specs::Commands::closing_group))]
fn closing_group(
    names: &mut Interner,
    line: u64,
    verb: ClosingAction,
    words: &[&[u8]],
) -> Result<Group, ScriptError>
    ensures { Gives Memory (λ group.
        group) result (closing_group line verb (map (λ word. word.now) words.now)) }
{
    match words {
        [name] => {
            let name = named(names, line, name)?;
            Ok(Group {
                action: closing_action(verb, name),
                operands: 1,
            })
        }
        _ => Err(bad(line)),
    }
}

/// The group `canceled`; it stands last.
#[tactic(auto, unfolding(crate::specs::Commands::canceled_group))]
fn canceled_group(line: u64, words: &[&[u8]]) -> Result<Group, ScriptError>
    ensures { result ≡ canceled_group line (map (λ word. word.now) words.now) }
{
    match words {
        [] => Ok(Group {
            action: Action::Canceled,
            operands: 0,
        }),
        _ => Err(bad(line)),
    }
}

/// The group that begins with a word, by the words after it.
#[tactic(auto, unfolding(crate::specs::Commands::group_of))]
fn group_of(
    names: &mut Interner,
    line: u64,
    word: &[u8],
    words: &[&[u8]],
) -> Result<Group, ScriptError>
    ensures { Gives Memory (λ group.
        group) result (group_of line word.now (map (λ word. word.now) words.now)) }
{
    match action_verb(word) {
        None => Err(bad(line)),
        Some(ActionVerb::Named(verb)) => named_group(names, line, verb, words),
        Some(ActionVerb::Paired(verb)) => paired_group(names, line, verb, words),
        Some(ActionVerb::Closing(verb)) => closing_group(names, line, verb, words),
        Some(ActionVerb::Canceled) => canceled_group(line, words),
    }
}

/// The actions that words are, read from left to right.
#[tactic(auto, unfolding(crate::specs::Commands::actions_behind))]
fn actions_of(names: &mut Interner, line: u64, words: &[&[u8]]) -> Result<Vec<Action>, ScriptError>
    ensures { Gives Memory (λ actions.
        actions.items) result (actions_of line (map (λ word. word.now) words.now)) }
{
    let mut actions = Vec::new(names.alloc());
    let mut operands: usize = 0;
    for place in 0..words.len() {
        if operands > 0 {
            operands -= 1;
        } else {
            let (_, behind) = words.split_at(place + 1);
            let group = group_of(names, line, words[place], behind)?;
            actions.push(group.action)?;
            operands = group.operands;
        }
    }
    Ok(actions)
}

/// `cancel`, `decide` or `timeoutdecision`, after the workflow.
#[tactic(auto, unfolding(crate::specs::Commands::bare_of))]
fn bare_of(line: u64, verb: BareCommand, words: &[&[u8]]) -> Result<Command, ScriptError>
    ensures answer { result ≡ bare_of line verb (map (λ word. word.now) words.now) }
    ensures well_formed { IfOk result IsWellFormedCommand }
{
    match words {
        [] => Ok(bare_command(verb)),
        _ => Err(bad(line)),
    }
}

/// A command with one name, after the workflow.
#[tactic(auto, unfolding(crate::specs::Commands::named_of))]
fn named_of(
    names: &mut Interner,
    line: u64,
    verb: NamedCommand,
    words: &[&[u8]],
) -> Result<Command, ScriptError>
    ensures answer { Gives Memory (λ command.
        command) result (named_of line verb (map (λ word. word.now) words.now)) }
    ensures well_formed { IfOk result IsWellFormedCommand }
{
    match words {
        [name] => {
            let name = named(names, line, name)?;
            Ok(named_command(verb, name))
        }
        _ => Err(bad(line)),
    }
}

/// A command with two names, after the workflow.
#[tactic(auto, unfolding(crate::specs::Commands::paired_of))]
fn paired_of(
    names: &mut Interner,
    line: u64,
    verb: PairedCommand,
    words: &[&[u8]],
) -> Result<Command, ScriptError>
    ensures answer { Gives Memory (λ command.
        command) result (paired_of line verb (map (λ word. word.now) words.now)) }
    ensures well_formed { IfOk result IsWellFormedCommand }
{
    match words {
        [one, two] => {
            let one = named(names, line, one)?;
            let two = named(names, line, two)?;
            Ok(paired_command(verb, one, two))
        }
        _ => Err(bad(line)),
    }
}

/// `respond ACTION ..`, after the workflow.
#[tactic(auto, unfolding(crate::specs::Commands::respond_of))]
fn respond_of(names: &mut Interner, line: u64, words: &[&[u8]]) -> Result<Command, ScriptError>
    ensures answer { Gives Memory (λ command.
        command) result (respond_of line (map (λ word. word.now) words.now)) }
    ensures well_formed { IfOk result IsWellFormedCommand }
{
    let actions = actions_of(names, line, words)?;
    Ok(Command::Respond {
        actions: Actions::new(actions),
    })
}

/// The command of a verb, by the words after the workflow.
#[tactic(auto, unfolding(crate::specs::Commands::command_of))]
pub fn command_of(
    names: &mut Interner,
    line: u64,
    verb: CommandVerb,
    words: &[&[u8]],
) -> Result<Command, ScriptError>
    ensures answer { Gives Memory (λ command.
        command) result (command_of line verb (map (λ word. word.now) words.now)) }
    ensures well_formed { IfOk result IsWellFormedCommand }
{
    match verb {
        CommandVerb::Bare(verb) => bare_of(line, verb, words),
        CommandVerb::Named(verb) => named_of(names, line, verb, words),
        CommandVerb::Paired(verb) => paired_of(names, line, verb, words),
        CommandVerb::Respond => respond_of(names, line, words),
    }
}

/// A command line `WORD C D W ..`, after its first word.
#[tactic(auto, unfolding(crate::specs::Commands::command_line))]
pub fn command_line(
    names: &mut Interner,
    header: &Header,
    line: u64,
    verb: CommandVerb,
    words: &[&[u8]],
) -> Result<Act, ScriptError>
    ensures answer { Gives Memory (λ act.
        act) result (command_line header.now line verb (map (λ word. word.now) words.now)) }
    ensures well_formed { IfOk result (IsWellFormedAct header.now) }
{
    match words {
        [cluster, domain, workflow, operands @ ..] => {
            let command = command_of(names, line, verb, operands)?;
            let at = workflow_at(names, header, line, cluster, domain, workflow)?;
            Ok(Act::Command {
                cluster: at.cluster,
                domain: at.domain,
                workflow: at.workflow,
                command,
            })
        }
        _ => Err(bad(line)),
    }
}
