//! The values that stand end to end: FEC elements, and routes of AFI 1.
use crate::value::Value;
use bgp_values::mvpn_nlri::{Afi, Route, RouteFault};
use mldp::mldp_fec::{Fec, FecFault};
use mv_base::{Bytes, NoMemory};
use value_text::{put_fec_fault, put_fec_line, put_route_fault, put_route_line};

impl Value for Fec {
    type Fault = FecFault;

    ghost use Rattle.decode_text.specs.Formats.{of_fecs};

    ghost telling = { of_fecs };

    fn read(octets: &[u8]) -> Result<(Fec, usize), FecFault> {
        mldp::mldp_fec::decode(octets)
    }

    fn put_line(&self, out: &mut Bytes) -> Result<(), NoMemory> {
        put_fec_line(out, self)
    }

    fn put_fault(out: &mut Bytes, thereafter: usize, fault: &FecFault) -> Result<(), NoMemory> {
        put_fec_fault(out, thereafter, fault)
    }
}

impl Value for Route {
    type Fault = RouteFault;

    ghost use Rattle.decode_text.specs.Formats.{of_routes};

    ghost telling = { of_routes };

    fn read(octets: &[u8]) -> Result<(Route, usize), RouteFault> {
        bgp_values::mvpn_nlri::decode(Afi::Ipv4, octets)
    }

    fn put_line(&self, out: &mut Bytes) -> Result<(), NoMemory> {
        put_route_line(out, self)
    }

    fn put_fault(out: &mut Bytes, thereafter: usize, fault: &RouteFault) -> Result<(), NoMemory> {
        put_route_fault(out, thereafter, fault)
    }
}
