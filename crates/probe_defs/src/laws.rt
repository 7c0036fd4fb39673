//! Laws of what a probe tells.
ghost use Rattle.std.specs.Prelude.{ℕ, List};
ghost use Rattle.mv_base.specs.Octets.{IsOctets};
ghost use Rattle.mv_base.specs.declared.ids.NodeId.{NodeId};
ghost use Rattle.edge_defs.specs.Place.{EdgePlace};
ghost use Rattle.probe_defs.specs.Given.{Comes, thereafter, fault_in, messages_in};
ghost use Rattle.probe_defs.specs.Lines.{octets_of};
ghost use Rattle.probe_defs.specs.Probed.{Yield};
ghost use Rattle.probe_defs.specs.declared.probe.ProbeLine.{ProbeLine};

/// An edge whose session with the peer has come up, and that is given the lines one after another, comes to what they say: it needs no
/// label, and it has the table of the whole messages before the first fault of the octets.
pub fn lines_make_a_probe()
    ensures comes { (place : EdgePlace) (peer : NodeId) (lines : List ProbeLine) → IsOctets (octets_of lines) →
        Comes place peer lines (thereafter place peer lines) }
    ensures yields { (octets : List ℕ) → IsOctets octets → Yield octets (messages_in octets) (fault_in octets) }
{}
