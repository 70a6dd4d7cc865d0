//! The numbers of blocks and of points that a design has.
#![tactic(auto)]

ghost use Rattle.block_counts.specs.Laws.{CountLaw, DifferencesLaw, FewGroupsLaw, FisherLaw, GroupCountLaw, GroupReplicationLaw, MeetPairsLaw, MeetsLaw, PartsLaw, ReplicationLaw};

/// What holds of the numbers of every design, whatever its block list: how many blocks a point and a design have, how the blocks meet one of
/// them, that a block design has no fewer blocks than points (R. A. Fisher 1940; R. C. Bose 1949), the counts of group divisible and of
/// pairwise balanced designs, and how many differences a difference family has.
pub fn block_laws()
    ensures replication { ReplicationLaw }
    ensures count { CountLaw }
    ensures meets { MeetsLaw }
    ensures meet_pairs { MeetPairsLaw }
    ensures fisher { FisherLaw }
    ensures group_replication { GroupReplicationLaw }
    ensures group_count { GroupCountLaw }
    ensures few_groups { FewGroupsLaw }
    ensures parts { PartsLaw }
    ensures differences { DifferencesLaw }
{}
