use crate::error::OpenError;
use ndc_event::OutOfMemory;
use ndc_script_read::parse;
use ndc_script_types::{Header, Script, ScriptError};
use std::alloc::Global;
use std::marker::Model;

/// What the nodes of one network have in common, as the lines of a script's header say it.
#[derive(Drop)]
pub(crate) struct Network {
    header: Header,
    /// The lines, as they came, each with its end.
    lines: Vec<u8>,
}

impl Model for Network {
    ghost use Rattle.ndc_script_types.specs.declared.script.Header.{Header};
    ghost use Rattle.ndc_script_types.specs.WellFormed.{IsWellFormedHeader};

    ghost Value = { Header };

    ghost view = { λ network. network.header };

    ghost invariant = { λ network. IsWellFormedHeader network.header };
}

impl Network {
    ghost use Rattle.ndc_script_types.specs.WellFormed.{IsWellFormedHeader};

    /// The network whose header these lines are.
    pub(crate) fn read(alloc: Global, lines: &[u8]) -> Result<Network, OpenError> {
        let lines = whole_lines(alloc, lines)?;
        let script = match parse(alloc, lines.as_slice()) {
            Ok(script) => script,
            Err(ScriptError::Memory) => return Err(OpenError::Memory),
            Err(error) => return Err(OpenError::Header(error)),
        };
        let Script {
            header,
            lines: after,
        } = script;
        if after.as_slice().is_empty() {
            Ok(Network { header, lines })
        } else {
            Err(OpenError::NoHeader)
        }
    }

    /// The header.
    pub(crate) fn header(&self) -> &Header
        ensures { IsWellFormedHeader result.now }
    {
        &self.header
    }

    /// The lines of the header, each with its end.
    pub(crate) fn lines(&self) -> &[u8] {
        self.lines.as_slice()
    }
}

/// A copy of lines, the last of which ends.
fn whole_lines(alloc: Global, lines: &[u8]) -> Result<Vec<u8>, OutOfMemory> {
    let mut copy = Vec::new(alloc);
    copy.extend_from_slice(lines)?;
    if !lines.ends_with(b"\n") {
        copy.extend_from_slice(b"\n")?;
    }
    Ok(copy)
}
