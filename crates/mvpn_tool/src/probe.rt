//! What one edge makes of the octets of a peer.
ghost use Rattle.std.specs.Prelude.{◌≡◌, ◌∷◌, [], true, false, IfOk};
ghost use Rattle.mv_base.specs.Octets.{IsOctets};
ghost use Rattle.probe_text.specs.probe_defs.Lines.{IsProbe, octets_of};
ghost use Rattle.mvpn_tool.specs.ProbeLines.{HasPeerFault, IsSound, TellsProbe};

use crate::probe_lines::put_report;
use crate::shown::{Shown, Shows};
use edge_probe::probe as probe_edge;
use hop_laws::of_run_laws::of_edge_routes::route_order::are_octets;
use line_words::ReadFault;
use mv_base::{Bytes, NoMemory};
use probe_text::of_probe_defs::{ProbeLine, ProbeLines};
use probe_text::{ProbeText, read};
use std::alloc::Global;

/// The octets of a line are octets.
fn has_octets(line: &ProbeLine)
    ensures { IsOctets (octets_of (line.now ∷ [])) }
{
    match line {
        ProbeLine::Piece(octets) => are_octets(octets.as_slice()),
        _ => {}
    }
}

/// The octets of all lines are octets.
fn have_octets(lines: &ProbeLines)
    ensures { IsOctets (octets_of lines.now) }
{
    let all = lines.as_slice();
    for line in all {
        has_octets(line);
    }
}

/// Shows what the edge makes of what it is given.
fn tell(alloc: Global, what: &ProbeText) -> Result<Shown, NoMemory>
    requires { IsProbe what.now.scenario what.now.ends.edge what.now.ends.peer what.now.lines }
    ensures told { IfOk result (λ shown. TellsProbe shown.refused what.now shown.text) }
    ensures sound { IsSound what.now → IfOk result (λ shown. shown.refused ≡ false) }
    ensures fault { HasPeerFault what.now → IfOk result (λ shown. shown.refused ≡ true) }
{
    have_octets(&what.lines);
    let report = probe_edge(
        alloc,
        &what.scenario,
        what.ends.edge,
        what.ends.peer,
        &what.lines,
    )?;
    let mut text = Bytes::new(alloc);
    put_report(&mut text, &what.scenario, &report)?;
    Ok(Shown {
        text,
        refused: report.fault.is_some(),
    })
}

/// What one edge makes of the lines that a text gives it, with the first fault of the peer's octets.
#[derive(Clone, Copy)]
pub struct Probe;

impl Shows for Probe {
    type Said = ProbeText;

    ghost use Rattle.probe_text.specs.Grammar.{probe_of};
    ghost use Rattle.mvpn_tool.specs.ProbeLines.{HasPeerFault, IsSound as IsSoundProbe, TellsProbe};

    ghost said = { probe_of };

    ghost Tells = { λ own. TellsProbe };

    ghost IsSound = { λ own. IsSoundProbe };

    ghost IsFaulty = { λ own. HasPeerFault };

    fn show(&self, alloc: Global, text: &[u8]) -> Result<Shown, ReadFault> {
        let what = read(alloc, text)?;
        Ok(tell(alloc, &what)?)
    }
}
