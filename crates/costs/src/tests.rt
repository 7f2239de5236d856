// Examples of the three kinds at their limits, and of joining lists.
use crate::kind::Kind;
use crate::kind_name::{KindName, UnknownLetter};
use crate::list::join_all;
use crate::points::Points;
use crate::rank::Rank;
use crate::severity::Severity;
use std::process::Abort;

const WORST: u32 = 4_294_967_295;

// The laws at three costs.
fn keeps_laws<K: Kind>(rt: &impl Abort, a: u32, b: u32, c: u32) {
    keeps_order::<K>(rt, a, b, c);
    keeps_joining::<K>(rt, a, b, c);
    assert!(rt; K::is_cost(K::free()) && K::is_cost(K::worst()) && K::free() != K::worst());
}

// Any two compare, no dearer is transitive, two costs each no dearer than the other are equal, and all lie between free
// and worst.
fn keeps_order<K: Kind>(rt: &impl Abort, a: u32, b: u32, c: u32) {
    assert!(rt; K::no_dearer(a, b) || K::no_dearer(b, a));
    assert!(rt; !(K::no_dearer(a, b) && K::no_dearer(b, c)) || K::no_dearer(a, c));
    assert!(rt; !(K::no_dearer(a, b) && K::no_dearer(b, a)) || a == b);
    assert!(rt; K::no_dearer(K::free(), a) && K::no_dearer(a, K::worst()));
}

// Two costs joined are a cost, joining is associative and keeps no dearer on either side, free changes nothing, and the
// worst stays the worst.
fn keeps_joining<K: Kind>(rt: &impl Abort, a: u32, b: u32, c: u32) {
    assert!(rt; K::is_cost(K::join(a, b)));
    assert_eq!(rt; K::join(K::join(a, b), c), K::join(a, K::join(b, c)));
    assert_eq!(rt; K::join(K::free(), a), a);
    assert_eq!(rt; K::join(a, K::free()), a);
    assert_eq!(rt; K::join(K::worst(), a), K::worst());
    assert_eq!(rt; K::join(a, K::worst()), K::worst());
    assert!(rt; !K::no_dearer(a, b) || K::no_dearer(K::join(a, c), K::join(b, c)));
    assert!(rt; !K::no_dearer(a, b) || K::no_dearer(K::join(c, a), K::join(c, b)));
}

#[test]
fn points_add_up_to_the_worst(rt: HostRuntime) {
    assert_eq!(rt; Points::join(4_294_967_290, 3), 4_294_967_293);
    assert_eq!(rt; Points::join(4_294_967_290, 4), 4_294_967_294);
    assert_eq!(rt; Points::join(4_294_967_294, 1), WORST);
    assert_eq!(rt; Points::join(4_294_967_290, 5), WORST);
    assert_eq!(rt; Points::join(4_294_967_290, 4_294_967_290), WORST);
    assert_eq!(rt; Points::join(WORST, 1), WORST);
    assert_eq!(rt; Points::join(WORST, 0), WORST);
    assert!(rt; Points::is_cost(WORST) && Points::scaled() && Points::letter() == 'P');
    keeps_laws::<Points>(&rt, 4_294_967_290, 4, 1);
    keeps_laws::<Points>(&rt, 4, 4_294_967_290, WORST);
}

#[test]
fn severity_takes_the_larger(rt: HostRuntime) {
    assert_eq!(rt; Severity::join(5, 9), 9);
    assert_eq!(rt; Severity::join(9, 5), 9);
    assert_eq!(rt; Severity::join(WORST, 4_294_967_294), WORST);
    assert!(rt;
        Severity::is_cost(4_293_918_720) && !Severity::scaled() && Severity::letter() == 'S'
    );
    keeps_laws::<Severity>(&rt, 7, 4_294_967_294, 3);
    keeps_laws::<Severity>(&rt, 3, 7, WORST);
}

#[test]
fn rank_adds_breaches_and_seconds(rt: HostRuntime) {
    // one breach and 1,048,575 seconds, and a second more
    assert_eq!(rt; Rank::join(2_097_151, 1), 2_097_151);
    // 4,093 breaches and one, and 4,094 and one
    assert_eq!(rt; Rank::join(4_291_821_568, 1_048_576), 4_292_870_144);
    assert_eq!(rt; Rank::join(4_292_870_144, 1_048_576), WORST);
    // the dearest costs below the worst, joined
    assert_eq!(rt; Rank::join(4_293_918_719, 4_293_918_719), WORST);
    assert_eq!(rt; Rank::join(4_293_918_719, 1), 4_293_918_719);
    assert!(rt; !Rank::scaled() && Rank::letter() == 'R');
    // both ceilings
    keeps_laws::<Rank>(&rt, 2_097_151, 1_048_575, 1);
    keeps_laws::<Rank>(&rt, 4_292_870_144, 1_048_576, 1_048_576);
    keeps_laws::<Rank>(&rt, 1, 4_293_918_719, WORST);
}

#[test]
fn rank_has_costs_up_to_4094_breaches(rt: HostRuntime) {
    assert!(rt; Rank::is_cost(0) && Rank::is_cost(4_293_918_719));
    assert!(rt; !Rank::is_cost(4_293_918_720));
    assert!(rt; !Rank::is_cost(4_294_967_294));
    assert!(rt; Rank::is_cost(WORST));
}

#[test]
fn letters_name_kinds(rt: HostRuntime) {
    assert_eq!(rt; KindName::try_from('P'), Ok(KindName::Points));
    assert_eq!(rt; KindName::try_from('S'), Ok(KindName::Severity));
    assert_eq!(rt; KindName::try_from('R'), Ok(KindName::Rank));
    assert_eq!(rt; KindName::try_from('p'), Err(UnknownLetter('p')));
    assert_eq!(rt; KindName::Points.letter(), 'P');
    assert_eq!(rt; KindName::Severity.letter(), 'S');
    assert_eq!(rt; KindName::Rank.letter(), 'R');
}

#[test]
fn lists_are_joined(rt: HostRuntime) {
    assert_eq!(rt; join_all::<Points>(&[]), Ok(0));
    assert_eq!(rt; join_all::<Points>(&[5, 7, 9]), Ok(21));
    assert_eq!(rt; join_all::<Severity>(&[5, 9, 7]), Ok(9));
    assert_eq!(rt; join_all::<Rank>(&[2_097_151, 1, 1_048_576]), Ok(3_145_727));
    // the index of the first number that is no cost
    assert_eq!(rt;
        join_all::<Rank>(&[1, 4_293_918_720, 4_294_967_294]),
        Err(1)
    );
    assert_eq!(rt; join_all::<Rank>(&[4_293_918_720]), Err(0));
}
