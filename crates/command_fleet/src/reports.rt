//! The reports of a framed input, as they are collected.

ghost use Rattle.std.specs.Prelude.{◌≡◌, ◌++◌, [], OnOk, OnErr};
ghost use Rattle.std.proofs.Common.{rules};
ghost use Rattle.command_fleet.specs.Reading.{Collects};

use command_streams::{Handled, Handler, Told};
use message_codec::reader::items::ReadFail;
use message_codec::wire::Out;
use message_reports::laws::report_fault;
use message_short::decode_report;
use message_values::AgentToServer;
use plain_values::NoMemory;
use std::alloc::Global;
use std::marker::Model;

/// The reports that came, in their order, which contracts see as the list of them. Nothing is written for a report.
#[derive(Drop)]
pub(crate) struct Reports {
    reports: Vec<AgentToServer>,
}

impl Model for Reports {
    ghost use Rattle.std.specs.Prelude.{List};
    ghost use Rattle.std.specs.Coded.{coded_list};
    ghost use Rattle.message_values.specs.contracts.report.AgentToServer as report;
    ghost use Rattle.message_values.specs.declared.report.AgentToServer.{AgentToServer};

    ghost Value = { List AgentToServer };

    ghost coded = { coded_list report.the_row.coded };

    ghost view = { λ r. r.reports.items };
}

impl Reports {
    /// No reports. Takes no memory.
    pub(crate) fn new(alloc: Global) -> Reports
        ensures empty { result ≡ [] }
    {
        Reports {
            reports: Vec::new(alloc),
        }
    }

    /// Adds reports behind those that are there. Want of memory leaves these alone.
    pub(crate) fn append(&mut self, more: Vec<AgentToServer>) -> Result<(), NoMemory>
        ensures added { OnOk result (self.new ≡ self.old ++ more.items) }
        ensures kept { OnErr result (self.new ≡ self.old) }
    {
        let mut more = more;
        self.reports.append(&mut more)?;
        Ok(())
    }

    /// The reports in their order, as a vector. Takes no memory.
    pub(crate) fn into_vec(self) -> Vec<AgentToServer>
        ensures reports { result.items ≡ self }
    {
        let Reports { reports } = self;
        reports
    }

    /// The reports in their order. Takes no memory.
    pub(crate) fn as_slice(&self) -> &[AgentToServer]
        ensures value { result.now ≡ self.now }
    {
        self.reports.as_slice()
    }
}

impl Handler for Reports {
    ghost gives = { Collects };

    ghost counted = { λ reports. 0 };

    ghost counts = { λ before after message output given. Prim.search rules };

    fn handle(
        &mut self,
        alloc: Global,
        message: &[u8],
        _output: &mut Out,
    ) -> Result<Handled, NoMemory> {
        report_fault();
        match decode_report(alloc, message) {
            Ok(report) => self.reports.push(report)?,
            Err(ReadFail::Refused(e)) => {
                return Ok(Handled::Refused {
                    at: e.at,
                    why: e.why,
                });
            }
            Err(ReadFail::NoMemory) => return Err(NoMemory),
        }
        Ok(Handled::Written)
    }
}

// It is told by the reports themselves.
impl Told for Reports {
    ghost use Rattle.message_values.specs.declared.report.AgentToServer.{AgentToServer};
    ghost use Rattle.std.specs.Prelude.{List};

    ghost State = { List AgentToServer };

    ghost makes = { Collects };

    ghost tells = { λ kept state. kept ≡ state };
}
