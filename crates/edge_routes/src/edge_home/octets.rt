//! The prefixes of a scenario are of octets, as their types say.
ghost use Rattle.std.specs.Prelude.{All};
ghost use Rattle.mv_base.specs.Address.{addr_octets};
ghost use Rattle.mv_base.specs.Octets.{IsOctets};

use crate::route_order::are_octets;
use mv_base::Prefix;
use scenario_defs::Site;

/// Shows that the prefix is of octets.
fn prefix_has_octets(prefix: &Prefix)
    ensures { IsOctets (addr_octets prefix.now.addr) }
{
    are_octets(prefix.addr.octets());
}

/// Shows that the prefixes are of octets.
fn prefixes_have_octets(prefixes: &[Prefix])
    ensures { All (λ prefix. IsOctets (addr_octets prefix.addr)) prefixes.now }
{
    for prefix in prefixes {
        prefix_has_octets(prefix);
    }
}

/// Shows that the prefixes of the site are of octets.
fn site_has_octets(site: &Site)
    ensures { All (λ prefix. IsOctets (addr_octets prefix.addr)) site.now.prefixes }
{
    prefixes_have_octets(site.prefixes.as_slice());
}

/// Shows that the prefixes of all sites are of octets. It does nothing.
pub fn sites_have_octets(sites: &[Site])
    ensures { All (λ site. All (λ prefix. IsOctets (addr_octets prefix.addr)) site.prefixes) sites.now }
{
    for site in sites {
        site_has_octets(site);
    }
}
