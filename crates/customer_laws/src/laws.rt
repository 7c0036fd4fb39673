//! Laws of two histories that are alike for a VPN.
ghost use Rattle.std.specs.Prelude.{◌≡◌, ℕ, ◌+◌, true, Some, slice_get};
ghost use Rattle.mv_base.specs.declared.addr.Addr.{Addr};
ghost use Rattle.mv_base.specs.declared.ids.IfaceId.{IfaceId};
ghost use Rattle.mv_base.specs.declared.ids.SiteId.{SiteId};
ghost use Rattle.mv_base.specs.declared.ids.VrfId.{VrfId};
ghost use Rattle.scenario_defs.specs.Rules.{Rules};
ghost use Rattle.scenario_defs.specs.Vpn.{is_attached};
ghost use Rattle.scenario_defs.specs.declared.scenario.Scenario.{Scenario};
ghost use Rattle.mvpn_model.specs.Once.{Once};
ghost use Rattle.mvpn_model.specs.Past.{Past, receivers};
ghost use Rattle.mvpn_model.specs.Report.{Datagram, datagrams, outs_at};
ghost use Rattle.customer_laws.specs.Concerns.{AreAlike};
ghost use Rattle.customer_laws.specs.Room.{OneRun, past_in, asked_in, HasRoom, reported_in, LeavesAlike};
ghost use Rattle.customer_laws.specs.Reported.{Reported, history, LiesInWindow, AreCounterparts, HasCounterpart};

/// Histories that are alike for a VPN have the same receivers for each flow from a site of it.
pub fn same_receivers()
    ensures { (vrf : VrfId) (one other : Past) → Rules other.scenario → AreAlike vrf one other →
        (site : SiteId) → is_attached other.scenario vrf site ≡ true → (source group : Addr) →
        receivers one site source group ≡ receivers other site source group }
{}

/// Where two histories are alike for a VPN as a whole, each datagram that was accepted from a site of it in one has its counterpart in
/// the other: with the same flow and octets, and what happened before both is alike for the VPN.
pub fn datagrams_have_counterparts()
    ensures { (scenario : Scenario) (vrf : VrfId) (one other : Reported) → AreAlike vrf (history scenario one) (history scenario other) →
        (place : ℕ) (datagram : Datagram) → slice_get (datagrams one.refused 0 one.events) place ≡ Some datagram →
        is_attached scenario vrf datagram.site ≡ true → HasCounterpart scenario vrf one other datagram }
{}

/// A datagram from a site of a VPN that lies in a calm window of two reports, in each of which datagrams of such windows are delivered
/// once, and before which what happened is alike for the VPN, leaves at each interface equally often in both.
pub fn same_interfaces()
    ensures { (scenario : Scenario) (one other : Reported) → Rules scenario → Once scenario one.events one.refused one.report →
        Once scenario other.events other.refused other.report → (vrf : VrfId) (place number : ℕ) (datagram counterpart : Datagram) →
        LiesInWindow one place datagram → LiesInWindow other number counterpart → is_attached scenario vrf counterpart.site ≡ true →
        AreCounterparts scenario vrf one other datagram counterpart → (iface : IfaceId) →
        outs_at one.report (place + 1) iface ≡ outs_at other.report (number + 1) iface }
{}

/// In two runs of one scenario whose events that concern a VPN are the same, and none of them is refused `full`, what happened is alike
/// for the VPN.
pub fn runs_are_alike()
    ensures { (vrf : VrfId) (one other : OneRun) → one.script.scenario ≡ other.script.scenario → asked_in vrf one ≡ asked_in vrf other →
        HasRoom vrf one → HasRoom vrf other → AreAlike vrf (past_in one) (past_in other) }
{}

/// In two such runs each datagram that was accepted in one from a site of the VPN has its counterpart in the other, and where both lie in
/// calm windows, they leave at the same interfaces, whatever other customers do.
pub fn runs_deliver_alike()
    ensures { (vrf : VrfId) (one other : OneRun) → one.script.scenario ≡ other.script.scenario → asked_in vrf one ≡ asked_in vrf other →
        HasRoom vrf one → HasRoom vrf other → (place : ℕ) (datagram : Datagram) →
        slice_get (datagrams (reported_in one).refused 0 one.events) place ≡ Some datagram →
        is_attached other.script.scenario vrf datagram.site ≡ true → LeavesAlike vrf one other place datagram }
{}
