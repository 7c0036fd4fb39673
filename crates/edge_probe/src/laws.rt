//! Laws of what is reported of a probe.
ghost use Rattle.std.specs.Prelude.{◌≡◌, List};
ghost use Rattle.mv_base.specs.Lists.{Among};
ghost use Rattle.mv_base.specs.declared.ids.NodeId.{NodeId};
ghost use Rattle.label_defs.specs.mldp.declared.mldp_fec.fec.Fec.{Fec};
ghost use Rattle.scenario_defs.specs.declared.scenario.Scenario.{Scenario};
ghost use Rattle.edge_defs.specs.Place.{addr_of};
ghost use Rattle.probe_defs.specs.Lines.{IsProbe};
ghost use Rattle.probe_defs.specs.Probed.{Probed, table_of};
ghost use Rattle.probe_defs.specs.Imports.{Import};
ghost use Rattle.probe_defs.specs.declared.probe.ProbeLine.{ProbeLine};
ghost use Rattle.probe_defs.specs.declared.probe.ProbeReport.{ProbeReport};
ghost use Rattle.edge_probe.specs.Targets.{HasTarget};

/// Each tunnel that is wanted has the peer's address as its root, whatever octets came.
pub fn wanted_roots_are_the_peers()
    ensures { (scenario : Scenario) (edge peer : NodeId) (lines : List ProbeLine) (report : ProbeReport) → IsProbe scenario edge peer lines →
        Probed scenario edge peer lines report → (fec : Fec) → Among fec report.wants → fec.root ≡ addr_of scenario peer }
{}

/// Each route that is taken is in the table that the octets leave, with a Route Target of the VRF that takes it, which is one of the edge.
pub fn imports_have_targets()
    ensures { (scenario : Scenario) (edge peer : NodeId) (lines : List ProbeLine) (report : ProbeReport) → (told : Probed scenario edge peer lines report) →
        (import : Import) → Among import report.imports → HasTarget scenario edge (table_of told.messages) import }
{}
