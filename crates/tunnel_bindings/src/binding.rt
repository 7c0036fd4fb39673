//! A label for a FEC towards an upstream, from the wish for it to its release.
ghost use Rattle.std.specs.Prelude.{◌≡◌, ◌<◌, ◌+◌, ◌^◌, IfOk, IfErr};
ghost use Rattle.tunnel_bindings.specs.declared.state.LabelState.TheVariants as LabelState;
ghost use Rattle.tunnel_bindings.specs.Labels.{IsOwned, IsLeastFree, NoneFree, set_label};

use crate::space::LabelSpace;
use mldp::mldp_fec::Fec;
use mv_base::NodeId;

/// Which raise of a session: a count.
#[derive(Clone, Copy, Debug, PartialEq, Eq)]
pub struct Incarnation(pub u64);

/// A FEC that waits for a label.
pub struct Wanted {}

/// A label that was told to the upstream (RFC 5036 section 3.5.7).
pub struct Mapped {
    label: u32,
    session: Incarnation,
}

/// A label that was withdrawn (RFC 5036 section 3.5.10), and not yet released (section 3.5.11).
pub struct Leaving {
    label: u32,
    session: Incarnation,
}

/// A FEC towards an upstream, and its label where it has one. It must be spent: each one by exactly one call.
pub struct Binding<S> {
    fec: Fec,
    upstream: NodeId,
    state: S,
}

impl<S> Binding<S> {
    pub fn fec(&self) -> &Fec
        ensures { result.now ≡ self.now.fec }
    {
        &self.fec
    }

    pub fn upstream(&self) -> NodeId
        ensures { result ≡ self.now.upstream }
    {
        self.upstream
    }
}

impl Binding<Wanted> {
    pub fn new(fec: Fec, upstream: NodeId) -> Binding<Wanted>
        ensures { result ≡ record { fec = fec; upstream = upstream; state = record {} } }
    {
        Binding {
            fec,
            upstream,
            state: Wanted {},
        }
    }

    /// The FEC wants no label any more.
    pub fn cancel(self) {
        let Binding {
            fec: _,
            upstream: _,
            state,
        } = self;
        let Wanted {} = state;
    }

    /// Takes the least free label, to be told to the upstream over this session. Where none is free, the binding comes back.
    pub fn map(
        self,
        space: &mut LabelSpace,
        session: Incarnation,
    ) -> Result<Binding<Mapped>, Binding<Wanted>>
        ensures least { IfOk result (λ mapped. IsLeastFree space.old mapped.state.label) }
        ensures owned { IfOk result (λ mapped. space.new ≡ set_label space.old mapped.state.label LabelState.Owned) }
        ensures mapped { IfOk result (λ mapped. mapped ≡ record {
          fec = self.fec;
          upstream = self.upstream;
          state = record { label = mapped.state.label; session = session };
        }) }
        ensures none { IfErr result (λ wanted. NoneFree space.old) }
        ensures unchanged { IfErr result (λ wanted. space.new ≡ space.old) }
        ensures back { IfErr result (λ wanted. wanted ≡ self) }
    {
        match space.take() {
            None => Err(self),
            Some(label) => {
                let Binding {
                    fec,
                    upstream,
                    state,
                } = self;
                let Wanted {} = state;
                Ok(Binding {
                    fec,
                    upstream,
                    state: Mapped { label, session },
                })
            }
        }
    }
}

impl Binding<Mapped> {
    pub fn label(&self) -> u32
        ensures { result ≡ self.now.state.label }
    {
        self.state.label
    }

    /// The session that the label was told over.
    pub fn session(&self) -> Incarnation
        ensures { result ≡ self.now.state.session }
    {
        self.state.session
    }

    /// The label is withdrawn. It stays owned until it is released.
    pub fn leave(self) -> Binding<Leaving>
        ensures { result ≡ record {
          fec = self.fec;
          upstream = self.upstream;
          state = record { label = self.state.label; session = self.state.session };
        } }
    {
        let Binding {
            fec,
            upstream,
            state,
        } = self;
        let Mapped { label, session } = state;
        Binding {
            fec,
            upstream,
            state: Leaving { label, session },
        }
    }

    /// The session is gone: the label is free at once, and the FEC waits for one again.
    pub fn lost(self, space: &mut LabelSpace) -> Binding<Wanted>
        requires { IsOwned space.old self.state.label }
        ensures freed { space.new ≡ set_label space.old self.state.label LabelState.Free }
        ensures wanted { result ≡ record { fec = self.fec; upstream = self.upstream; state = record {} } }
    {
        let Binding {
            fec,
            upstream,
            state,
        } = self;
        let Mapped { label, session: _ } = state;
        space.free(label);
        Binding::new(fec, upstream)
    }
}

impl Binding<Leaving> {
    pub fn label(&self) -> u32
        ensures { result ≡ self.now.state.label }
    {
        self.state.label
    }

    /// The session that the label was told over.
    pub fn session(&self) -> Incarnation
        ensures { result ≡ self.now.state.session }
    {
        self.state.session
    }

    /// The upstream released the label: it rests.
    pub fn released(self, now: u64, space: &mut LabelSpace)
        requires owned { IsOwned space.old self.state.label }
        requires now { now < 2 ^ 63 }
        ensures { space.new ≡ set_label space.old self.state.label (LabelState.Resting (now + space.old.life + 1)) }
    {
        let Binding {
            fec: _,
            upstream: _,
            state,
        } = self;
        let Leaving { label, session: _ } = state;
        space.rest(label, now);
    }

    /// The session is gone: the label is free at once.
    pub fn lost(self, space: &mut LabelSpace)
        requires { IsOwned space.old self.state.label }
        ensures { space.new ≡ set_label space.old self.state.label LabelState.Free }
    {
        let Binding {
            fec: _,
            upstream: _,
            state,
        } = self;
        let Leaving { label, session: _ } = state;
        space.free(label);
    }
}
