//! Labels that are taken, released and lost.
ghost use Rattle.std.specs.Prelude.{◌≡◌, IfSome};
ghost use Rattle.std.specs.FinMap as maps;
ghost use Rattle.tunnel_bindings.specs.declared.state.LabelState.TheVariants as LabelState;
ghost use Rattle.tunnel_bindings.specs.Labels.{IsLeastFree, IsOwned, set_label};
ghost use Rattle.tunnel_bindings.specs.States.{label_of};

use super::*;
use mldp::mldp_fec::{Fec, FecKind};
use mv_base::{Addr, Inline, NodeId};
use std::process::Abort;
use std::test::*;

/// A FEC that waits for a label.
fn wanted(root: u8) -> Binding<Wanted> {
    let fec = Fec {
        kind: FecKind::P2mp,
        root: Addr::V4([192, 0, 2, root]),
        opaque: Inline::of(&[]).unwrap(),
    };
    Binding::<Wanted>::new(fec, NodeId(3))
}

/// A FEC that has a label. Some label is free.
fn mapped(rt: &impl Abort, space: &mut LabelSpace) -> Binding<Mapped>
    ensures least { IsLeastFree space.old result.state.label }
    ensures owned { space.new ≡ set_label space.old result.state.label LabelState.Owned }
{
    match wanted(1).map(space, Incarnation(7)) {
        Ok(mapped) => mapped,
        Err(wanted) => {
            wanted.cancel();
            panic!(rt; "no label is free")
        }
    }
}

/// The least free labels are taken, and one that is lost is free at once.
#[test]
fn takes_the_least(rt: HostRuntime) -> Result<(), Fail> {
    let mut space = LabelSpace::of(rt.alloc(), 100, 5).ok().ok_or("memory")?;
    let first = mapped(&rt, &mut space);
    let second = mapped(&rt, &mut space);
    assert_eq!(rt; first.label(), 16);
    assert_eq!(rt; second.label(), 17);
    assert_eq!(rt; second.session(), Incarnation(7));
    assert_eq!(rt; second.upstream(), NodeId(3));
    second.lost(&mut space).cancel();
    first.lost(&mut space).cancel();
    Ok(())
}

/// A label that is released rests until the moment after its life, and then is taken again.
#[test]
fn rests(rt: HostRuntime) -> Result<(), Fail> {
    let mut space = LabelSpace::of(rt.alloc(), 1, 5).ok().ok_or("memory")?;
    let leaving = mapped(&rt, &mut space).leave();
    assert_eq!(rt; leaving.label(), 16);
    leaving.released(10, &mut space);
    assert_eq!(rt; space.due(15), 0);
    assert_eq!(rt; space.due(16), 1);
    space.wake(15);
    assert_eq!(rt; space.due(16), 1);
    space.wake(16);
    assert_eq!(rt; space.due(16), 0);
    let again = mapped(&rt, &mut space);
    assert_eq!(rt; again.label(), 16);
    again.lost(&mut space).cancel();
    Ok(())
}

/// Where no label is free, the binding comes back.
#[test]
fn none_free(rt: HostRuntime) -> Result<(), Fail> {
    let mut space = LabelSpace::of(rt.alloc(), 1, 1).ok().ok_or("memory")?;
    let only = mapped(&rt, &mut space);
    match wanted(2).map(&mut space, Incarnation(8)) {
        Ok(more) => {
            more.lost(&mut space).cancel();
            only.leave().lost(&mut space);
            assert!(rt; false);
        }
        Err(back) => {
            assert_eq!(rt; back.fec().root, Addr::V4([192, 0, 2, 2]));
            back.cancel();
            only.leave().lost(&mut space);
        }
    }
    Ok(())
}

/// Keeps the binding. There is memory.
fn keep(
    rt: &impl Abort,
    bindings: &mut Bindings,
    space: &mut LabelSpace,
    binding: AnyBinding,
) -> BindingName
    requires { IfSome (label_of binding) (λ label. IsOwned space.old label) }
    ensures kept { bindings.new.kept ≡ maps.insert bindings.old.kept result binding }
    ensures space { space.new ≡ space.old }
{
    match bindings.keep(binding) {
        Ok(name) => name,
        Err(back) => {
            back.end(space);
            panic!(rt; "there is no memory")
        }
    }
}

/// A name that was given up answers nothing, also where its place is used again. A close frees the label.
#[test]
fn names_are_given_once(rt: HostRuntime) -> Result<(), Fail> {
    let mut space = LabelSpace::of(rt.alloc(), 1, 5).ok().ok_or("memory")?;
    let mut bindings = Bindings::of(rt.alloc());
    let first = keep(
        &rt,
        &mut bindings,
        &mut space,
        AnyBinding::Wanted(wanted(1)),
    );
    match bindings.take(first) {
        Some(AnyBinding::Wanted(wanted)) => wanted.cancel(),
        _ => panic!(rt; "the name is kept"),
    }
    let own = mapped(&rt, &mut space);
    let second = keep(&rt, &mut bindings, &mut space, AnyBinding::Mapped(own));
    let states = (bindings.state(first), bindings.state(second));
    bindings.close(&mut space);
    assert_eq!(rt; states.0, None);
    assert_eq!(rt; states.1, Some(BindingState::Mapped(16)));
    assert_eq!(rt; second.index, first.index);
    let again = mapped(&rt, &mut space);
    assert_eq!(rt; again.label(), 16);
    again.lost(&mut space).cancel();
    Ok(())
}
