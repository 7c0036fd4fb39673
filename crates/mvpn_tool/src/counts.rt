//! How many lines of a report are of which kind.
ghost use Rattle.std.specs.Prelude.{◌≡◌, ◌+◌, fold, OnOk};
ghost use Rattle.mvpn_tool.specs.Sweep.{is_calm, no_counts, with_line};

use mv_base::NoMemory;
use scenario_defs::ReportLine;

/// How often a datagram left at an interface, how many events were refused, and how many states were shown with five zeros.
#[derive(Clone, Copy, PartialEq, Eq)]
pub struct Counts {
    pub outs: u64,
    pub refused: u64,
    pub calm: u64,
}

/// Whether the line shows a state of five zeros.
fn is_calm(line: &ReportLine) -> bool
    ensures { result ≡ is_calm line.now }
{
    match line {
        ReportLine::State {
            bytes: 0,
            copies: 0,
            buffers: 0,
            due: 0,
            unready: 0,
        } => true,
        _ => false,
    }
}

/// One more. A count that 64 bits do not hold is answered as out of memory.
fn count_up(count: &mut u64) -> Result<(), NoMemory>
    ensures { OnOk result (count.new ≡ count.old + 1) }
{
    *count = count.checked_add(1).ok_or(NoMemory)?;
    Ok(())
}

impl Counts {
    pub(crate) fn none() -> Counts
        ensures { result ≡ no_counts }
    {
        Counts {
            outs: 0,
            refused: 0,
            calm: 0,
        }
    }

    /// Counts a line.
    fn add(&mut self, line: &ReportLine) -> Result<(), NoMemory>
        ensures { OnOk result (self.new ≡ with_line self.old line.now) }
    {
        match line {
            ReportLine::Out { .. } => count_up(&mut self.outs),
            ReportLine::Refused { .. } => count_up(&mut self.refused),
            _ if is_calm(line) => count_up(&mut self.calm),
            _ => Ok(()),
        }
    }

    /// Counts some lines.
    pub(crate) fn add_all(&mut self, lines: &[ReportLine]) -> Result<(), NoMemory>
        ensures { OnOk result (self.new ≡ fold with_line self.old lines.now) }
    {
        for line in lines {
            self.add(line)?;
        }
        Ok(())
    }
}
