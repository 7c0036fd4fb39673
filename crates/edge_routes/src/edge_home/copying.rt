//! A scenario that is copied.
ghost use Rattle.std.specs.Prelude.{◌≡◌, IfOk};

use mv_base::{NoMemory, Seq};
use scenario_defs::{Scenario, Site, Sites};
use std::alloc::Global;

/// A copy of the list.
fn copied<T: Copy>(alloc: Global, list: &Seq<T>) -> Result<Seq<T>, NoMemory>
    ensures { IfOk result (λ copy. copy ≡ list.now) }
{
    let mut copy = Vec::new(alloc);
    copy.extend_from_slice(list.as_slice())?;
    Ok(Seq::from_vec(copy))
}

/// A copy of the sites.
fn copied_sites(alloc: Global, sites: &[Site]) -> Result<Sites, NoMemory>
    ensures { IfOk result (λ copy. copy ≡ sites.now) }
{
    let mut copy = Seq::new(alloc);
    for site in sites {
        let prefixes = copied(alloc, &site.prefixes)?;
        copy.push(Site {
            name: site.name,
            prefixes,
        })?;
    }
    Ok(copy)
}

/// A copy of the scenario.
pub fn copied_scenario(alloc: Global, scenario: &Scenario) -> Result<Scenario, NoMemory>
    ensures { IfOk result (λ copy. copy ≡ scenario.now) }
{
    Ok(Scenario {
        life: scenario.life,
        delay: scenario.delay,
        labels: scenario.labels,
        system: scenario.system,
        nodes: copied(alloc, &scenario.nodes)?,
        links: copied(alloc, &scenario.links)?,
        vrfs: copied(alloc, &scenario.vrfs)?,
        sites: copied_sites(alloc, scenario.sites.as_slice())?,
        ifaces: copied(alloc, &scenario.ifaces)?,
    })
}
