//! Sets of replicas: bit i is replica i.
ghost use Rattle.std.specs.Prelude.{◌≡◌, ◌<◌, ◌≤◌, ◌-◌, ◌^◌};
ghost use Rattle.ag_rules.specs.Group.{has, with_member, without_member};

/// Whether a set has this replica.
#[tactic(auto, using(crate::proofs::Sets::shifted))]
pub fn has_member(set: u16, n: u8) -> bool
    requires { n < 16 }
    ensures { result ≡ has set n }
{
    (set >> n) & 1 == 1
}

/// The set with this replica.
#[tactic(auto, using(crate::proofs::Sets::bit_set))]
pub fn with_member(set: u16, n: u8) -> u16
    requires { n < 16 }
    ensures { result ≡ with_member set n }
{
    set | (1 << n)
}

/// The set without this replica.
#[tactic(auto, using(crate::proofs::Sets::bit_cleared))]
pub fn without_member(set: u16, n: u8) -> u16
    requires { n < 16 }
    ensures { result ≡ without_member set n }
{
    set & !(1 << n)
}

/// The set of the first so many replicas.
pub fn first_members(replicas: u8) -> u16
    requires { replicas ≤ 16 }
    ensures { result ≡ 2 ^ replicas - 1 }
{
    ((1u32 << replicas) - 1) as u16
}
