//! A binding in any of its states, and what state that is.
ghost use Rattle.std.specs.Prelude.{◌≡◌, IfSome};
ghost use Rattle.tunnel_bindings.specs.Labels.{IsOwned};
ghost use Rattle.tunnel_bindings.specs.States.{state_of_binding, label_of, with_free};

use crate::binding::{Binding, Leaving, Mapped, Wanted};
use crate::space::LabelSpace;

/// A binding in one of its states. It must be spent, as a binding is.
pub enum AnyBinding {
    Wanted(Binding<Wanted>),
    Mapped(Binding<Mapped>),
    Leaving(Binding<Leaving>),
}

/// Which state a binding is in, with its label where it has one.
#[derive(Clone, Copy, Debug, PartialEq, Eq)]
pub enum BindingState {
    Wanted,
    Mapped(u32),
    Leaving(u32),
}

impl AnyBinding {
    /// Which state the binding is in.
    pub fn state(&self) -> BindingState
        ensures { result ≡ state_of_binding self.now }
    {
        match self {
            AnyBinding::Wanted(_) => BindingState::Wanted,
            AnyBinding::Mapped(mapped) => BindingState::Mapped(mapped.label()),
            AnyBinding::Leaving(leaving) => BindingState::Leaving(leaving.label()),
        }
    }

    /// Cancels a wanted binding, and frees the label of any other one.
    pub fn end(self, space: &mut LabelSpace)
        requires { IfSome (label_of self) (λ label. IsOwned space.old label) }
        ensures { space.new ≡ with_free space.old (label_of self) }
    {
        match self {
            AnyBinding::Wanted(wanted) => wanted.cancel(),
            AnyBinding::Mapped(mapped) => mapped.lost(space).cancel(),
            AnyBinding::Leaving(leaving) => leaving.lost(space),
        }
    }
}
