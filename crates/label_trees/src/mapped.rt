//! Labels that are mapped, and the notes of them in the forwarding table.
ghost use Rattle.std.specs.Prelude.{◌≡◌, Some, OnOk};
ghost use Rattle.std.specs.FinMap as maps;
ghost use Rattle.label_defs.specs.declared.label_use.LabelUse.TheVariants as usages;
ghost use Rattle.label_forwarding.specs.FibData.{hop};
ghost use Rattle.label_trees.specs.label_uses.Uses.{use_in};
ghost use Rattle.label_trees.specs.Trees.{AreMapped, AreMappedBut};

use crate::label_uses::LabelUses;
use label_forwarding::Fib;
use mldp::mldp_fec::Fec;
use mv_base::{NoMemory, NodeId};

/// Notes the label that was mapped. Where there is no memory for that, the label is mapped no longer.
pub(crate) fn note(
    uses: &mut LabelUses,
    fib: &mut Fib,
    label: u32,
    fec: &Fec,
    upstream: NodeId,
) -> Result<(), NoMemory>
    requires mapped { use_in uses.old.labels label ≡ Some (usages.Mapped fec.now upstream) }
    requires others { AreMappedBut label fib.old.pairs uses.old.labels }
    ensures all { AreMapped fib.new.pairs uses.new.labels }
    ensures noted { OnOk result (fib.new ≡ record fib.old { pairs = maps.insert fib.old.pairs (hop upstream label) fec.now }) }
    ensures kept { OnOk result (uses.new ≡ uses.old) }
{
    match fib.map(upstream, label, *fec) {
        Ok(()) => Ok(()),
        Err(full) => {
            let _ = uses.leave(label, fec, upstream);
            Err(full)
        }
    }
}
