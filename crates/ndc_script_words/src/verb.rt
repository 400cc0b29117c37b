// The words that begin lines and actions, by what stands after them.
ghost use Rattle.std.specs.Prelude.{◌≡◌};
ghost use Rattle.ndc_script_words.specs.Verbs.{verb_to_b, verb_c, verb_d, verb_to_h, verb_to_m, verb_to_q, verb_r, verb_s, verb_from_t, verb_of, closing_verb, action_verb};

/// Commands that need no name.
#[derive(Clone, Copy)]
pub enum BareCommand {
    Cancel,
    Decide,
    TimeoutDecision,
}

/// Commands that need one name.
#[derive(Clone, Copy)]
pub enum NamedCommand {
    Start,
    Terminate,
    FailDecision,
    ActivityStart,
    ActivityTimeout,
    Fire,
    ChildStart,
}

/// Commands that need two names.
#[derive(Clone, Copy)]
pub enum PairedCommand {
    Signal,
    ActivityDone,
    ActivityFail,
    ChildDone,
    ChildFail,
}

/// Commands, by what they need.
#[derive(Clone, Copy)]
pub enum CommandVerb {
    Bare(BareCommand),
    Named(NamedCommand),
    Paired(PairedCommand),
    Respond,
}

/// Actions that need one name and do not close the run.
#[derive(Clone, Copy)]
pub enum NamedAction {
    Timer,
    Untimer,
    Marker,
}

/// Actions that need two names.
#[derive(Clone, Copy)]
pub enum PairedAction {
    Activity,
    Child,
}

/// Actions that need one name and close the run.
#[derive(Clone, Copy)]
pub enum ClosingAction {
    Complete,
    Fail,
    Continue,
}

/// Actions, by what they need.
#[derive(Clone, Copy)]
pub enum ActionVerb {
    Named(NamedAction),
    Paired(PairedAction),
    Closing(ClosingAction),
    Canceled,
}

/// Lines `WORD C`.
#[derive(Clone, Copy)]
pub enum ClusterVerb {
    Work,
    Trim,
    Gaps,
    Resend,
    Letters,
    Purge,
    MergeLetters,
}

/// Lines `WORD C C` on two clusters that differ.
#[derive(Clone, Copy)]
pub enum PairVerb {
    Pull,
    Rewind,
    Bootstrap,
    Domains,
    Sync,
}

/// Lines `WORD C D`.
#[derive(Clone, Copy)]
pub enum DomainVerb {
    Domain,
    Members,
    Complete,
}

/// Lines `WORD C D CLUSTER`.
#[derive(Clone, Copy)]
pub enum TargetVerb {
    Join,
    Failover,
}

/// Lines `WORD READER SOURCE SHARD NUMBER`.
#[derive(Clone, Copy)]
pub enum PlaceVerb {
    Pull,
    Lose,
    Repeat,
}

/// Lines `WORD READER SOURCE SHARD PLACE NUMBER`.
#[derive(Clone, Copy)]
pub enum PlacesVerb {
    Move,
    Damage,
}

/// Lines `WORD C D W`.
#[derive(Clone, Copy)]
pub enum WorkflowVerb {
    History,
    Branches,
    Current,
    State,
    Dump,
}

/// Lines, by the words that they need after the first.
#[derive(Clone, Copy)]
pub enum Verb {
    Command(CommandVerb),
    Burst,
    Register,
    Retain,
    Domain(DomainVerb),
    Target(TargetVerb),
    Handover,
    Pair(PairVerb),
    Pull,
    Place(PlaceVerb),
    Places(PlacesVerb),
    Levels,
    Cluster(ClusterVerb),
    Settle,
    Workflow(WorkflowVerb),
    Compare,
    Reset,
    Beat,
    Progress,
}

/// First words up to the letter b.
#[tactic(auto, unfolding(crate::specs::Verbs::verb_to_b))]
fn verb_to_b(word: &[u8]) -> Option<Verb>
    ensures { result ≡ verb_to_b word.now }
{
    if word == b"actstart".as_slice() {
        Some(Verb::Command(CommandVerb::Named(NamedCommand::ActivityStart)))
    } else if word == b"actdone".as_slice() {
        Some(Verb::Command(CommandVerb::Paired(PairedCommand::ActivityDone)))
    } else if word == b"actfail".as_slice() {
        Some(Verb::Command(CommandVerb::Paired(PairedCommand::ActivityFail)))
    } else if word == b"acttimeout".as_slice() {
        Some(Verb::Command(CommandVerb::Named(NamedCommand::ActivityTimeout)))
    } else if word == b"beat".as_slice() {
        Some(Verb::Beat)
    } else if word == b"bootstrap".as_slice() {
        Some(Verb::Pair(PairVerb::Bootstrap))
    } else if word == b"branches".as_slice() {
        Some(Verb::Workflow(WorkflowVerb::Branches))
    } else if word == b"burst".as_slice() {
        Some(Verb::Burst)
    } else {
        None
    }
}

/// First words with the letter c.
#[tactic(auto, unfolding(crate::specs::Verbs::verb_c))]
fn verb_c(word: &[u8]) -> Option<Verb>
    ensures { result ≡ verb_c word.now }
{
    if word == b"cancel".as_slice() {
        Some(Verb::Command(CommandVerb::Bare(BareCommand::Cancel)))
    } else if word == b"childstart".as_slice() {
        Some(Verb::Command(CommandVerb::Named(NamedCommand::ChildStart)))
    } else if word == b"childdone".as_slice() {
        Some(Verb::Command(CommandVerb::Paired(PairedCommand::ChildDone)))
    } else if word == b"childfail".as_slice() {
        Some(Verb::Command(CommandVerb::Paired(PairedCommand::ChildFail)))
    } else if word == b"compare".as_slice() {
        Some(Verb::Compare)
    } else if word == b"complete".as_slice() {
        Some(Verb::Domain(DomainVerb::Complete))
    } else if word == b"current".as_slice() {
        Some(Verb::Workflow(WorkflowVerb::Current))
    } else {
        None
    }
}

/// First words with the letter d.
#[tactic(auto, unfolding(crate::specs::Verbs::verb_d))]
fn verb_d(word: &[u8]) -> Option<Verb>
    ensures { result ≡ verb_d word.now }
{
    if word == b"damage".as_slice() {
        Some(Verb::Places(PlacesVerb::Damage))
    } else if word == b"decide".as_slice() {
        Some(Verb::Command(CommandVerb::Bare(BareCommand::Decide)))
    } else if word == b"domain".as_slice() {
        Some(Verb::Domain(DomainVerb::Domain))
    } else if word == b"domains".as_slice() {
        Some(Verb::Pair(PairVerb::Domains))
    } else if word == b"dump".as_slice() {
        Some(Verb::Workflow(WorkflowVerb::Dump))
    } else {
        None
    }
}

/// First words with the letters e to h.
#[tactic(auto, unfolding(crate::specs::Verbs::verb_to_h))]
fn verb_to_h(word: &[u8]) -> Option<Verb>
    ensures { result ≡ verb_to_h word.now }
{
    if word == b"faildecision".as_slice() {
        Some(Verb::Command(CommandVerb::Named(NamedCommand::FailDecision)))
    } else if word == b"failover".as_slice() {
        Some(Verb::Target(TargetVerb::Failover))
    } else if word == b"fire".as_slice() {
        Some(Verb::Command(CommandVerb::Named(NamedCommand::Fire)))
    } else if word == b"gaps".as_slice() {
        Some(Verb::Cluster(ClusterVerb::Gaps))
    } else if word == b"handover".as_slice() {
        Some(Verb::Handover)
    } else if word == b"history".as_slice() {
        Some(Verb::Workflow(WorkflowVerb::History))
    } else {
        None
    }
}

/// First words with the letters i to m.
#[tactic(auto, unfolding(crate::specs::Verbs::verb_to_m))]
fn verb_to_m(word: &[u8]) -> Option<Verb>
    ensures { result ≡ verb_to_m word.now }
{
    if word == b"join".as_slice() {
        Some(Verb::Target(TargetVerb::Join))
    } else if word == b"letters".as_slice() {
        Some(Verb::Cluster(ClusterVerb::Letters))
    } else if word == b"levels".as_slice() {
        Some(Verb::Levels)
    } else if word == b"lose".as_slice() {
        Some(Verb::Place(PlaceVerb::Lose))
    } else if word == b"members".as_slice() {
        Some(Verb::Domain(DomainVerb::Members))
    } else if word == b"mergeletters".as_slice() {
        Some(Verb::Cluster(ClusterVerb::MergeLetters))
    } else if word == b"move".as_slice() {
        Some(Verb::Places(PlacesVerb::Move))
    } else {
        None
    }
}

/// First words with the letters n to q.
#[tactic(auto, unfolding(crate::specs::Verbs::verb_to_q))]
fn verb_to_q(word: &[u8]) -> Option<Verb>
    ensures { result ≡ verb_to_q word.now }
{
    if word == b"progress".as_slice() {
        Some(Verb::Progress)
    } else if word == b"pull".as_slice() {
        Some(Verb::Pull)
    } else if word == b"purge".as_slice() {
        Some(Verb::Cluster(ClusterVerb::Purge))
    } else {
        None
    }
}

/// First words with the letter r.
#[tactic(auto, unfolding(crate::specs::Verbs::verb_r))]
fn verb_r(word: &[u8]) -> Option<Verb>
    ensures { result ≡ verb_r word.now }
{
    if word == b"register".as_slice() {
        Some(Verb::Register)
    } else if word == b"repeat".as_slice() {
        Some(Verb::Place(PlaceVerb::Repeat))
    } else if word == b"resend".as_slice() {
        Some(Verb::Cluster(ClusterVerb::Resend))
    } else if word == b"reset".as_slice() {
        Some(Verb::Reset)
    } else if word == b"respond".as_slice() {
        Some(Verb::Command(CommandVerb::Respond))
    } else if word == b"retain".as_slice() {
        Some(Verb::Retain)
    } else if word == b"rewind".as_slice() {
        Some(Verb::Pair(PairVerb::Rewind))
    } else {
        None
    }
}

/// First words with the letter s.
#[tactic(auto, unfolding(crate::specs::Verbs::verb_s))]
fn verb_s(word: &[u8]) -> Option<Verb>
    ensures { result ≡ verb_s word.now }
{
    if word == b"settle".as_slice() {
        Some(Verb::Settle)
    } else if word == b"signal".as_slice() {
        Some(Verb::Command(CommandVerb::Paired(PairedCommand::Signal)))
    } else if word == b"start".as_slice() {
        Some(Verb::Command(CommandVerb::Named(NamedCommand::Start)))
    } else if word == b"state".as_slice() {
        Some(Verb::Workflow(WorkflowVerb::State))
    } else if word == b"sync".as_slice() {
        Some(Verb::Pair(PairVerb::Sync))
    } else {
        None
    }
}

/// First words from the letter t on.
#[tactic(auto, unfolding(crate::specs::Verbs::verb_from_t))]
fn verb_from_t(word: &[u8]) -> Option<Verb>
    ensures { result ≡ verb_from_t word.now }
{
    if word == b"terminate".as_slice() {
        Some(Verb::Command(CommandVerb::Named(NamedCommand::Terminate)))
    } else if word == b"timeoutdecision".as_slice() {
        Some(Verb::Command(CommandVerb::Bare(BareCommand::TimeoutDecision)))
    } else if word == b"trim".as_slice() {
        Some(Verb::Cluster(ClusterVerb::Trim))
    } else if word == b"work".as_slice() {
        Some(Verb::Cluster(ClusterVerb::Work))
    } else {
        None
    }
}

/// What a line that begins with this word is, by the first letter.
#[tactic(auto, unfolding(crate::specs::Verbs::verb_of))]
pub fn verb_of(word: &[u8]) -> Option<Verb>
    ensures { result ≡ verb_of word.now }
{
    match word {
        [] => None,
        [letter, ..] => {
            if *letter <= b'b' {
                verb_to_b(word)
            } else if *letter <= b'c' {
                verb_c(word)
            } else if *letter <= b'd' {
                verb_d(word)
            } else if *letter <= b'h' {
                verb_to_h(word)
            } else if *letter <= b'm' {
                verb_to_m(word)
            } else if *letter <= b'q' {
                verb_to_q(word)
            } else if *letter <= b'r' {
                verb_r(word)
            } else if *letter <= b's' {
                verb_s(word)
            } else {
                verb_from_t(word)
            }
        }
    }
}

/// What an action is that closes the run and begins with this word.
#[tactic(auto, unfolding(crate::specs::Verbs::closing_verb))]
fn closing_verb(word: &[u8]) -> Option<ActionVerb>
    ensures { result ≡ closing_verb word.now }
{
    if word == b"complete".as_slice() {
        Some(ActionVerb::Closing(ClosingAction::Complete))
    } else if word == b"fail".as_slice() {
        Some(ActionVerb::Closing(ClosingAction::Fail))
    } else if word == b"canceled".as_slice() {
        Some(ActionVerb::Canceled)
    } else if word == b"continue".as_slice() {
        Some(ActionVerb::Closing(ClosingAction::Continue))
    } else {
        None
    }
}

/// What an action that begins with this word is.
#[tactic(auto, unfolding(crate::specs::Verbs::action_verb))]
pub fn action_verb(word: &[u8]) -> Option<ActionVerb>
    ensures { result ≡ action_verb word.now }
{
    if word == b"activity".as_slice() {
        Some(ActionVerb::Paired(PairedAction::Activity))
    } else if word == b"timer".as_slice() {
        Some(ActionVerb::Named(NamedAction::Timer))
    } else if word == b"untimer".as_slice() {
        Some(ActionVerb::Named(NamedAction::Untimer))
    } else if word == b"child".as_slice() {
        Some(ActionVerb::Paired(PairedAction::Child))
    } else if word == b"marker".as_slice() {
        Some(ActionVerb::Named(NamedAction::Marker))
    } else {
        closing_verb(word)
    }
}
