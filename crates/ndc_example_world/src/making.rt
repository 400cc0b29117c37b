//! Lines that the program makes itself.
ghost use Rattle.std.specs.Prelude.{IfOk};
ghost use Rattle.ndc_script_types.specs.WellFormed.{IsCluster, IsWellFormedAct, IsWellFormedCommand};

use crate::error::StoryError;
use ndc_command::Command;
use ndc_domain::ClusterNo;
use ndc_event::Name;
use ndc_script_types::{Act, Header, Line};

/// The cluster of this name.
pub(crate) fn cluster(header: &Header, name: &[u8]) -> Result<ClusterNo, StoryError>
    ensures { IfOk result (IsCluster header.now) }
{
    match header.clusters.find(name) {
        Some(cluster) => Ok(cluster),
        None => Err(StoryError::NoCluster),
    }
}

/// The command that starts a workflow of this type.
pub(crate) fn start_of(workflow_type: Name) -> Command
    ensures { IsWellFormedCommand result }
{
    let _text = workflow_type.as_str();
    Command::Start { workflow_type }
}

/// A line that the program has made. It is let go in one place.
pub(crate) struct Made {
    pub line: Line,
}

impl Drop for Made {
    fn drop(self) {
        let Made { line: _line } = self;
    }
}

/// The line of this number that hands a command to a workflow at a cluster.
pub(crate) fn command_line(
    header: &Header,
    number: u64,
    at: ClusterNo,
    domain: Name,
    workflow: Name,
    command: Command,
) -> Line
    requires at { IsCluster header.now at }
    requires command { IsWellFormedCommand command }
    ensures { IsWellFormedAct header.now result.act }
{
    let _text = domain.as_str();
    let _other = workflow.as_str();
    Line {
        number,
        act: Act::Command {
            cluster: at,
            domain,
            workflow,
            command,
        },
    }
}
