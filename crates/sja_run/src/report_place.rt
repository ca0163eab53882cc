//! [`ReportPlace`]: where a report is, behind some of its lines.

ghost use Rattle.std.specs.Prelude.{◌≡◌, ◌+◌, ◌<◌, ◌≤◌};
ghost use Rattle.sja_run.specs.Difference.{place_behind, start_place};

/// Where a report is, behind some of its lines.
#[derive(Clone, Copy)]
pub(crate) struct ReportPlace {
    /// How many nodes have begun.
    pub(crate) nodes: usize,
    /// How many lines stand behind the first one of the last node; of the report, before the first node.
    pub(crate) lines: usize,
}

impl ReportPlace {
    /// Before the first line.
    pub(crate) fn start() -> ReportPlace
        ensures { result ≡ start_place }
    {
        ReportPlace { nodes: 0, lines: 0 }
    }

    /// Behind this line more.
    pub(crate) fn behind(self, line: &[u8]) -> ReportPlace
        requires { self.nodes + self.lines < 18446744073709551615 }
        ensures place { result ≡ place_behind self line.now }
        ensures bound { result.nodes + result.lines ≤ self.nodes + self.lines + 1 }
    {
        if line.starts_with(b"node ") {
            ReportPlace {
                nodes: self.nodes + 1,
                lines: 0,
            }
        } else {
            ReportPlace {
                nodes: self.nodes,
                lines: self.lines + 1,
            }
        }
    }
}
