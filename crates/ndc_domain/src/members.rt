ghost use Rattle.std.specs.Prelude.{◌≡◌, ℕ, ◌<◌, ◌==◌, All};
ghost use Rattle.ndc_domain.specs.Members.{AreMembers, has_member, members_of, with_member, union_of};

use crate::clusters::{ClusterNo, MAX_CLUSTERS};
use std::marker::Model;

/// The members of a domain: clusters of numbers below 8. Seen as the ascending list of their
/// numbers.
#[derive(Clone, Copy, Debug)]
pub struct Members {
    flags: [bool; 8],
}

impl Model for Members {
    ghost use Rattle.std.specs.Prelude.{◌≡◌, ℕ, List, length};
    ghost use Rattle.ndc_domain.specs.Members.{members_flagged, flags_of};
    ghost use Rattle.ndc_domain.specs.Flags.{flags_back};
    ghost use Rattle.std.proofs.Common.{ap};

    ghost Value = { List ℕ };

    ghost view = { λ members. members_flagged members.flags };

    ghost invariant = { λ members. length members.flags ≡ 8 };

    ghost inverse = { λ members. record { flags = flags_of members } };

    ghost inverse_ok = { λ members length_is.
        ap (λ flags. record { flags = flags }) (flags_back members.flags length_is) };
}

impl Members {
    ghost use Rattle.std.specs.Prelude.{◌≡◌, ℕ, ◌<◌, All};

    /// The members that the clusters of the list are, whatever their order and how often they stand
    /// there. Their numbers are below 8.
    pub fn of(list: &[ClusterNo]) -> Members
        requires { All (λ cluster. cluster.number < 8) list.now }
        ensures members { result ≡ members_of list.now }
        ensures below { (count : ℕ) →
            All (λ cluster. cluster.number < count) list.now
            → All (λ member. member < count) result }
    {
        let mut flags = [false; 8];
        for cluster in list {
            flags[cluster.number as usize] = true;
        }
        Members { flags }
    }

    /// Whether the cluster is a member.
    pub fn has(&self, cluster: ClusterNo) -> bool
        ensures has { result ≡ has_member self.now cluster.number }
        ensures ascending { AreMembers self.now }
    {
        (cluster.number as usize) < MAX_CLUSTERS && self.flags[cluster.number as usize]
    }

    /// The members and one more, whose number is below 8.
    pub fn with(self, cluster: ClusterNo) -> Members
        requires { cluster.number < 8 }
        ensures { result ≡ with_member self cluster.number }
    {
        let mut flags = self.flags;
        flags[cluster.number as usize] = true;
        Members { flags }
    }

    /// The members of both.
    pub fn union(self, other: Members) -> Members
        ensures { result ≡ union_of self other }
    {
        let mut flags = self.flags;
        for place in 0..MAX_CLUSTERS {
            flags[place] = flags[place] || other.flags[place];
        }
        Members { flags }
    }
}

impl PartialEq for Members {
    ghost use Rattle.std.specs.Prelude.{nat_eq};
    ghost use Rattle.std.specs.Cmp.{partial_equiv_from_equiv};
    ghost use Rattle.std.specs.Cmp.Lexicographic.{pointwise, nat_list_eq_equiv};

    ghost eq = { λ one two. pointwise nat_eq one two };

    ghost laws = { partial_equiv_from_equiv nat_list_eq_equiv };

    fn eq(&self, other: &Members) -> bool {
        self.flags == other.flags
    }
}

impl Eq for Members {
    ghost use Rattle.std.specs.Cmp.Lexicographic.{nat_list_eq_equiv};

    ghost laws = { nat_list_eq_equiv };
}
