ghost use Rattle.std.specs.Prelude.{◌≡◌, slice_get, option_map, option_and_then};
ghost use Rattle.estelle_model.specs.Subject.{ips_of, transition};
ghost use Rattle.estelle_model.specs.Queues.{common_at};

/// What a specification says of the queues of its bodies' interaction points, by the numbers of bodies, points and
/// transitions.
pub trait Disciplines {
    ghost use Rattle.estelle_model.specs.Subject.{Subject};

    /// The specification.
    ghost subject: { Self → Subject };

    /// Whether an interaction point shares the common queue of its instance.
    fn is_common(&self, body: u32, ip: u32) -> bool
        ensures { result ≡ common_at (slice_get (ips_of (subject self.now) body) ip) };

    /// The interaction point at which a transition receives, if it has a `when`.
    fn received_at(&self, body: u32, trans: u32) -> Option<u32>
        ensures { result ≡ option_and_then (λ t. option_map (λ w. w.ip) t.when) (transition (subject self.now) body trans) };
}
