//! Messages that are told.
ghost use Rattle.std.specs.Prelude.{◌≡◌, All, OnOk};
ghost use Rattle.mldp.specs.mldp_msgs.Spelling.{IsRouter};
ghost use Rattle.mldp_node.specs.label_ends.Ends.{with_puts};
ghost use Rattle.mldp_node.specs.Parts.{IsPut};

use crate::label_ends::Ends;
use label_defs::Put;
use mv_base::{Addr, NoMemory};

/// Tells the messages one after another.
pub(crate) fn tell_all(ends: &mut Ends, addr: Addr, puts: &[Put]) -> Result<(), NoMemory>
    requires router { IsRouter addr }
    requires written { All IsPut puts.now }
    ensures { OnOk result (ends.new ≡ with_puts addr ends.old puts.now) }
{
    for put in puts {
        ends.tell(addr, put)?;
    }
    Ok(())
}
